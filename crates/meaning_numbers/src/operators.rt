// The operators of kernels.

ghost use Rattle.std.specs.Prelude.{◌≡◌, option_map};
ghost use Rattle.std.specs.Int.{int_wrap, w64};
ghost use Rattle.kern_calls.specs.Types.{bits_of, width_of};
ghost use Rattle.word_arithmetic.specs.Widths.{IsShiftWidth};
ghost use Rattle.timeline_sem.specs.Numbers.{compares, exact_result, unary_result};

use kern_calls::{ValueType, bits_of};
use kern_syntax::{BinaryOperator, Comparison, UnaryOperator};
use word_arithmetic::{low_signed, quotient, remainder, shifted_left, shifted_right};

// A number wrapped at the width of a type.
fn wrapped(kind: ValueType, a: i64) -> i64
    ensures { result ≡ int_wrap (width_of kind) a }
{
    match kind {
        ValueType::Int32 => low_signed(a),
        _ => a,
    }
}

// The result of an operator, wrapped at 64 bits; none of a division by 0.
fn combined(operator: BinaryOperator, bits: u8, a: i64, b: i64) -> Option<i64>
    requires { IsShiftWidth bits }
    ensures { result ≡ option_map (int_wrap w64) (exact_result operator bits a b) }
{
    match operator {
        BinaryOperator::Add => Some(a.wrapping_add(b)),
        BinaryOperator::Subtract => Some(a.wrapping_sub(b)),
        BinaryOperator::Multiply => Some(a.wrapping_mul(b)),
        BinaryOperator::Divide => quotient(a, b),
        BinaryOperator::Remainder => remainder(a, b),
        BinaryOperator::ShiftLeft => Some(shifted_left(a, b, bits)),
        BinaryOperator::ShiftRight => Some(shifted_right(a, b, bits)),
        BinaryOperator::BitAnd => Some(a & b),
        BinaryOperator::BitXor => Some(a ^ b),
        BinaryOperator::BitOr => Some(a | b),
    }
}

/// The result of an operator, wrapped at the width of its type; none of a division by 0.
pub fn operated(operator: BinaryOperator, kind: ValueType, a: i64, b: i64) -> Option<i64>
    ensures { result ≡ option_map (int_wrap (width_of kind)) (exact_result operator (bits_of kind) a b) }
{
    match combined(operator, bits_of(kind), a, b) {
        Some(whole) => Some(wrapped(kind, whole)),
        None => None,
    }
}

/// The result of `-` or `~`, wrapped at the width of its type.
pub fn changed(operator: UnaryOperator, kind: ValueType, a: i64) -> i64
    ensures { result ≡ int_wrap (width_of kind) (unary_result operator a) }
{
    match operator {
        UnaryOperator::Negate => wrapped(kind, a.wrapping_neg()),
        UnaryOperator::Invert => wrapped(kind, !a),
    }
}

/// The answer of a comparison.
pub fn compared(comparison: Comparison, a: i64, b: i64) -> bool
    ensures { result ≡ compares comparison a b }
{
    match comparison {
        Comparison::Equal => a == b,
        Comparison::NotEqual => a != b,
        Comparison::Less => a < b,
        Comparison::LessEqual => a <= b,
        Comparison::Greater => a > b,
        Comparison::GreaterEqual => a >= b,
    }
}
