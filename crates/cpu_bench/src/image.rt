// The image of the loop.

ghost use Rattle.std.specs.Prelude.{◌≡◌, IfOk, IfSome};
ghost use Rattle.core_image.specs.Ranges.{IsInRange};
ghost use Rattle.core_image.specs.Spelling.{image_of as image_of_code};
ghost use Rattle.cpu_bench.specs.Loop.{loop_code};

use core_image::{ImageEnd, Verified, decode, verify};
use core_isa::Code;
use std::alloc::Global;

const LENGTH: usize = 172;

// Where the number of turns stands.
const TURNS: usize = 130;

// Slot 0 is the value, and slot 1 counts the turns. At the end the value is put into the cursor.
const LOOP: [u8; LENGTH] = [
    0x4b, 0x49, 0x4d, 0x31, 1, 0, 0, 0, 0, 0, 22, 0, 0, 0, // one function, no names, 22 instructions
    0, 0, 0, 0, 0, 2, 0, 0, // the function: two slots
    0, 0, 0, 0, 1, 0, 0, 0, 0, 0, 0, 0, // 0: Const 1
    2, 1, 0, 0, 0, 0, // 1: Store 0
    27, 0, 0, 0, // 2: Turn
    1, 0, 0, 0, 0, 0, // 3: Load 0
    0, 1, 0, 0, 109, 78, 198, 65, 0, 0, 0, 0, // 4: Const 1103515245
    7, 2, 0, 0, // 5: Mul
    0, 1, 0, 0, 57, 48, 0, 0, 0, 0, 0, 0, // 6: Const 12345
    5, 2, 0, 0, // 7: Add
    17, 1, 0, 0, // 8: Wrap32
    2, 1, 0, 0, 0, 0, // 9: Store 0
    1, 0, 0, 0, 1, 0, // 10: Load 1
    0, 1, 0, 0, 1, 0, 0, 0, 0, 0, 0, 0, // 11: Const 1
    5, 2, 0, 0, // 12: Add
    2, 1, 0, 0, 1, 0, // 13: Store 1
    1, 0, 0, 0, 1, 0, // 14: Load 1
    0, 1, 0, 0, 0, 0, 0, 0, 0, 0, 0, 0, // 15: Const TURNS
    20, 2, 0, 0, // 16: Lt
    26, 1, 0, 0, 19, 0, 0, 0, // 17: JumpZero 19
    25, 0, 0, 0, 2, 0, 0, 0, // 18: Jump 2
    1, 0, 0, 0, 0, 0, // 19: Load 0
    34, 1, 0, 0, // 20: At
    29, 0, 0, 0, // 21: Return
];

// The image of the loop with so many turns, one at least.
fn image_of(turns: u32) -> [u8; LENGTH]
    ensures { result ≡ image_of_code (loop_code turns) }
{
    let mut bytes = LOOP;
    bytes[TURNS..TURNS + 8].copy_from_slice(&i64::from(turns).to_le_bytes());
    bytes
}

/// The loop's code, decoded from its image and accepted; None where there is no memory, or where it isn't accepted.
pub fn loop_code(alloc: Global, turns: u32) -> Option<Verified>
    ensures { IfSome result (λ verified. verified ≡ loop_code turns) }
{
    let code = decoded(alloc, turns).ok()?;
    verify(code).ok()
}

// What the image spells.
fn decoded(alloc: Global, turns: u32) -> Result<Code, ImageEnd>
    ensures in_range { IfOk result IsInRange }
    ensures value { IfOk result (λ code. code ≡ loop_code turns) }
{
    decode(alloc, &image_of(turns))
}
