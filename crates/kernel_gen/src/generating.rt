// The text of a generated kernel.
ghost use Rattle.std.specs.Prelude.{◌≡◌, ◌++◌, ◌≤◌, length, IfOk, OnOk, string_bytes};
ghost use Rattle.kernel_gen.specs.Generated.{kernel_text, delay_line, pulse_line};

use crate::pulse::{Pulse, next_number};
use std::alloc::{AllocError, Global};

// How many pulses a turn has.
const PULSES: u64 = 200;

// The bytes of the longest such text: 54 of its first three lines, and at most 50 of each pulse.
const ROOM: usize = 10_054;

const HEAD: &str = "def main():\n    core.reset()\n    for k in range(100):\n";

/// The text of the kernel that a number makes: `main` resets the core, and then 100 times gives the same 200 pulses, each
/// behind a delay. Before each pulse the number becomes `number * 6364136223846793005 + 1442695040888963407` modulo 2^64.
/// The pulse then has the delay `8 + number / 2^33 % 1000` (mu), the output `ttlN` with `N = number / 2^60`, and the length
/// `8 + number / 2^20 % 64` (mu). So the cycles of its 40,000 events rise. Any number makes a kernel. It fails only for want
/// of memory.
pub fn generated_text(alloc: Global, number: u64) -> Result<Vec<u8>, AllocError>
    ensures text { IfOk result (λ bytes. bytes.items ≡ kernel_text number) }
    ensures small { IfOk result (λ bytes. length bytes.items ≤ 10054) }
{
    let mut text = String::with_capacity(alloc, ROOM)?;
    text.push_str(HEAD)?;
    let mut x = number;
    for _ in 0..PULSES {
        x = next_number(x);
        let pulse = Pulse::of(x);
        write_delay(&mut text, pulse.delay)?;
        write_pulse(&mut text, pulse.output, pulse.length)?;
    }
    Ok(text.into_bytes())
}

// Appends the line of a delay.
fn write_delay(text: &mut String, delay: u64) -> Result<(), AllocError>
    ensures { OnOk result (string_bytes text.new ≡ string_bytes text.old ++ delay_line delay) }
{
    writeln!(text, "        delay_mu({delay})")
}

// Appends the line of a pulse.
fn write_pulse(text: &mut String, output: u64, length: u64) -> Result<(), AllocError>
    ensures { OnOk result (string_bytes text.new ≡ string_bytes text.old ++ pulse_line output length) }
{
    writeln!(text, "        ttl{output}.pulse_mu({length})")
}
