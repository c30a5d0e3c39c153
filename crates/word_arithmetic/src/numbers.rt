// Arithmetic on values of 64 bits.

ghost use Rattle.std.specs.Prelude.{◌≡◌, ◌*ℤ◌, pos};
ghost use Rattle.std.specs.Int.{int_shr, int_wrap, w32, w64};
ghost use Rattle.rtio_types.specs.Integers.{floor_quotient, floor_remainder, low_bits, nonzero, shift_distance, shift_factor};
ghost use Rattle.rtio_types.specs.Time.{later};
ghost use Rattle.word_arithmetic.specs.Widths.{IsShiftWidth};

/// The quotient rounded down, which wraps; none of a divisor of 0.
pub fn quotient(a: i64, b: i64) -> Option<i64>
    ensures { result ≡ nonzero b (int_wrap w64 (floor_quotient a b)) }
{
    if b == 0 {
        return None;
    }
    Some(if 0 < b {
        a.div_euclid(b)
    } else if 0 < a {
        // Division rounds to 0: of one less than a it gives one more than the quotient rounded down.
        (a - 1) / b - 1
    } else {
        a.wrapping_div(b)
    })
}

/// What is left of that quotient; none of a divisor of 0.
pub fn remainder(a: i64, b: i64) -> Option<i64>
    ensures { result ≡ nonzero b (int_wrap w64 (floor_remainder a b)) }
{
    let whole = quotient(a, b)?;
    Some(a.wrapping_sub(b.wrapping_mul(whole)))
}

// How far a shift goes.
fn distance(amount: i64, width: u8) -> u32
    requires { IsShiftWidth width }
    ensures { result ≡ shift_distance width amount }
{
    amount.rem_euclid(width as i64) as u32
}

/// A value shifted to the left, its amount taken modulo the width; the result wraps.
pub fn shifted_left(a: i64, amount: i64, width: u8) -> i64
    requires { IsShiftWidth width }
    ensures { result ≡ int_wrap w64 (a *ℤ pos (shift_factor width amount)) }
{
    a.wrapping_shl(distance(amount, width))
}

/// A value shifted to the right, its amount taken modulo the width; the sign stays.
pub fn shifted_right(a: i64, amount: i64, width: u8) -> i64
    requires { IsShiftWidth width }
    ensures { result ≡ int_wrap w64 (int_shr a (shift_distance width amount)) }
{
    a.wrapping_shr(distance(amount, width))
}

/// The low 32 bits.
pub fn low_word(a: i64) -> u32
    ensures { result ≡ low_bits 32 a }
{
    a.rem_euclid(1 << 32) as u32
}

/// The low 8 bits.
pub fn low_byte(a: i64) -> u8
    ensures { result ≡ low_bits 8 a }
{
    a.rem_euclid(1 << 8) as u8
}

/// The low 32 bits, signed.
pub fn low_signed(a: i64) -> i64
    ensures { result ≡ int_wrap w32 a }
{
    low_word(a).cast_signed() as i64
}

/// A moment moved on by a time, both in mu, wrapping at 64 bits.
pub fn moved_on(moment: i64, time: i64) -> i64
    ensures { result ≡ later moment time }
{
    moment.wrapping_add(time)
}
