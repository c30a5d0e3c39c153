// Numbers in as few bytes as they need, and signed numbers as unsigned ones.

ghost use Rattle.std.specs.Prelude.{◌≡◌, ◌≤◌, ◌-◌, ◌++◌, length, replicate, OnOk};
ghost use Rattle.recording_bytes.specs.Numbers.{few_bytes, folded, is_short, number_of, unfolded};

use std::alloc::AllocError;

/// How many bytes a number needs: none for 0.
pub fn bytes_needed(number: u64) -> u8
    ensures value { result ≡ length (few_bytes 8 number) }
    ensures most { result ≤ 8 }
{
    let mut rest = number;
    let mut width = 0;
    while rest != 0 {
        width += 1;
        rest /= 256;
    }
    width
}

/// Writes a number in as few bytes as it needs, its low byte first.
pub fn write_number(bytes: &mut Vec<u8>, number: u64) -> Result<(), AllocError>
    ensures { OnOk result (bytes.new.items ≡ bytes.old.items ++ few_bytes 8 number) }
{
    let mut rest = number;
    while rest != 0 {
        bytes.push((rest % 256) as u8)?;
        rest /= 256;
    }
    Ok(())
}

/// The number in some bytes, its low byte first.
pub fn read_number(bytes: &[u8]) -> u64
    requires { length bytes.now ≤ 8 }
    ensures { result ≡ number_of bytes.now }
{
    u64::from_le_bytes(widened(bytes))
}

// The bytes, and zeros behind them.
fn widened(bytes: &[u8]) -> [u8; 8]
    requires { length bytes.now ≤ 8 }
    ensures { result ≡ bytes.now ++ replicate (8 - length bytes.now) 0 }
{
    let mut wide = [0; 8];
    wide[..bytes.len()].copy_from_slice(bytes);
    wide
}

/// Whether no byte is spare: the last one isn't 0.
pub fn is_short(bytes: &[u8]) -> bool
    ensures { result ≡ is_short bytes.now }
{
    match bytes.last() {
        Some(last) => *last != 0,
        None => true,
    }
}

/// A signed number d as an unsigned one: 2 * d from 0 on, and -2 * d - 1 below.
pub fn folded(number: i64) -> u64
    ensures { result ≡ folded number }
{
    if 0 <= number {
        2 * number.unsigned_abs()
    } else {
        2 * (number.unsigned_abs() - 1) + 1
    }
}

/// The signed number that an unsigned one stands for.
pub fn unfolded(number: u64) -> i64
    ensures { result ≡ unfolded number }
{
    let half = (number / 2) as i64;
    if number % 2 == 0 { half } else { -half - 1 }
}
