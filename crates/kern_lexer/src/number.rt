// Decimal and hexadecimal numbers.

ghost use Rattle.std.specs.Prelude.{◌≡◌, ◌+◌, ◌*◌, ◌≤◌};
ghost use Rattle.std.specs.Char.{is_ascii_hexdigit};
ghost use Rattle.std.specs.List.{list_all};
ghost use Rattle.kern_lexer.specs.Numbers.{is_decimal, is_hexadecimal, digit_value, value_of, within_limit, number_of};

// Whether a word is decimal digits, with single underscores between two of them.
fn is_decimal(word: &[u8]) -> bool
    ensures { result ≡ is_decimal word.now }
{
    let mut after_digit = false;
    for b in word {
        let is_digit = b.is_ascii_digit();
        if !is_digit && !(after_digit && *b == b'_') {
            return false;
        }
        after_digit = is_digit;
    }
    after_digit
}

fn are_hexadecimal_digits(digits: &[u8]) -> bool
    ensures { result ≡ list_all is_ascii_hexdigit digits.now }
{
    digits.iter().all(|b| b.is_ascii_hexdigit())
}

// Whether a word is `0x` and digits of base 16.
fn is_hexadecimal(word: &[u8]) -> bool
    ensures { result ≡ is_hexadecimal word.now }
{
    word.starts_with(b"0x") && word.len() > 2 && are_hexadecimal_digits(&word[2..])
}

// The value of a digit of base 16.
fn digit_value(b: u8) -> u64
    ensures { result ≡ digit_value b }
{
    let value = match b {
        b'0'..=b'9' => b - b'0',
        b'A'..=b'Z' => b - b'A' + 10,
        _ => b.saturating_sub(b'a' - 10),
    };
    value as u64
}

// The value of one more digit, where it is at most 2^63 - 1.
fn one_more_digit(base: u64, value: u64, b: u8) -> Option<u64>
    ensures { result ≡ within_limit (base * value + digit_value b) }
{
    let value = base.checked_mul(value)?.checked_add(digit_value(b))?;
    if value < 1 << 63 { Some(value) } else { None }
}

// The value of digits in a base, where it is at most 2^63 - 1. An underscore counts for nothing.
fn value_of(base: u64, digits: &[u8]) -> Option<u64>
    requires { 1 ≤ base }
    ensures { result ≡ within_limit (value_of base digits.now) }
{
    let mut value = 0;
    for b in digits {
        if *b != b'_' {
            value = one_more_digit(base, value, *b)?;
        }
    }
    Some(value)
}

/// The number that a word is: decimal or hexadecimal, and at most 2^63 - 1.
pub(crate) fn number_of(word: &[u8]) -> Option<u64>
    ensures { result ≡ number_of word.now }
{
    if is_decimal(word) {
        value_of(10, word)
    } else if is_hexadecimal(word) {
        value_of(16, &word[2..])
    } else {
        None
    }
}
