// Numbers in decimal.

ghost use Rattle.std.specs.Prelude.{◌≡◌, ◌++◌, ◌<◌, codes, decimal, OnOk, string_bytes};

use itoa::{Buffer, Integer};
use std::alloc::AllocError;

/// Appends a number, with a minus sign where it is negative. The only error is want of memory.
#[inline(always)]
pub fn write_number<I: Integer>(text: &mut String, number: I) -> Result<(), AllocError>
    ensures { OnOk result (string_bytes text.new ≡ string_bytes text.old ++ I.text number) }
{
    text.push_str(Buffer::new().format(number))
}

/// Appends a space and a number.
#[inline(always)]
pub fn write_spaced<I: Integer>(text: &mut String, number: I) -> Result<(), AllocError>
    ensures { OnOk result (string_bytes text.new ≡ string_bytes text.old ++ codes " " ++ I.text number) }
{
    text.push_str(" ")?;
    write_number(text, number)
}

/// Appends a space and a number, at once where it has one digit.
#[inline(always)]
pub fn write_small(text: &mut String, number: u32) -> Result<(), AllocError>
    ensures { OnOk result (string_bytes text.new ≡ string_bytes text.old ++ codes " " ++ decimal number) }
{
    if number < 10 {
        return text.push_str(spaced_digit(number));
    }
    write_spaced(text, number)
}

// A space and a digit.
#[inline(always)]
#[tactic(auto, using(std::proofs::lemmas::Fmt::decimal_digit))]
fn spaced_digit(digit: u32) -> &'static str
    requires { digit < 10 }
    ensures { result.now ≡ codes " " ++ decimal digit }
{
    match digit {
        0 => " 0",
        1 => " 1",
        2 => " 2",
        3 => " 3",
        4 => " 4",
        5 => " 5",
        6 => " 6",
        7 => " 7",
        8 => " 8",
        9 => " 9",
        _ => unreachable!(),
    }
}
