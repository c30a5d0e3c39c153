// Numbers in words.

ghost use Rattle.std.specs.Prelude.{◌≡◌};
ghost use Rattle.std.specs.Char.{is_ascii_digit};
ghost use Rattle.std.specs.List.{list_all};
ghost use Rattle.option_values.specs.Numbers.{is_number, number_in, number_of};

use limits::MOST_DIGITS;

/// The number that 1 to 19 decimal digits spell, if it lies from `least` to `most`. The first digits may be zeros.
pub fn read_number(text: &str, least: u64, most: u64) -> Option<u64>
    ensures { result ≡ number_in least most text.now }
{
    let number = number_of(text)?;
    (least <= number && number <= most).then_some(number)
}

// The number of 1 to 19 decimal digits.
fn number_of(text: &str) -> Option<u64>
    ensures { result ≡ number_of text.now }
{
    if is_number(text) {
        text.parse::<u64>().ok()
    } else {
        None
    }
}

fn is_number(text: &str) -> bool
    ensures { result ≡ is_number text.now }
{
    1 <= text.len() && text.len() <= MOST_DIGITS && are_digits(text.as_bytes())
}

fn are_digits(bytes: &[u8]) -> bool
    ensures { result ≡ list_all is_ascii_digit bytes.now }
{
    bytes.iter().all(|byte| byte.is_ascii_digit())
}
