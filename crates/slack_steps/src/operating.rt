// Operators.

ghost use Rattle.slack_meaning.specs.Actions as A;
ghost use Rattle.slack_meaning.specs.Expressions.{operate, operate_numbers, operate_spans};
ghost use Rattle.slack_state.specs.Does.{DoesAlways};

use kern_calls::ValueType;
use kern_syntax::BinaryOperator;
use meaning_numbers::operated;
use rtio_types::Exc;
use slack_meaning::{OpenKind, Span};
use slack_state::{Reason, State, are_both_numbers, exactly, less, sum};

// The result of an operator on two numbers, wrapped at the width of its type. A divisor of 0 raises.
fn operate_numbers(
    operator: BinaryOperator,
    kind: ValueType,
    a: i64,
    b: i64,
) -> Result<Span, Reason>
    ensures { (s : A.State) → DoesAlways result s (operate_numbers operator kind a b s) }
{
    match operated(operator, kind, a, b) {
        Some(number) => Ok(exactly(number)),
        None => Err(Reason::Raised(Exc::ZeroDivisionError)),
    }
}

// A span less a number, if it doesn't reach too far.
fn span_less(state: &State, a: Span, number: i64) -> Result<Span, Reason>
    ensures { DoesAlways result state.now (A.within_near (span_less a number) state.now) }
{
    match less(a, number) {
        Some(span) => Ok(span),
        None => Err(state.unknown(OpenKind::Far)),
    }
}

ghost use Rattle.slack_meaning.specs.Expressions.{less};
ghost use Rattle.slack_meaning.specs.Spans.{span_less};

// A number taken from a span.
fn lessened(state: &State, a: Span, b: Span) -> Result<Span, Reason>
    ensures { DoesAlways result state.now (less a b state.now) }
{
    let number = state.number(b)?;
    span_less(state, a, number)
}

// An operator with a span.
fn operate_spans(
    state: &State,
    operator: BinaryOperator,
    kind: ValueType,
    a: Span,
    b: Span,
) -> Result<Span, Reason>
    ensures { DoesAlways result state.now (operate_spans operator kind a b state.now) }
{
    match (operator, kind) {
        (BinaryOperator::Add, ValueType::Int64) => match sum(a, b) {
            Some(span) => Ok(span),
            None => Err(state.unknown(OpenKind::Far)),
        },
        (BinaryOperator::Subtract, ValueType::Int64) => lessened(state, a, b),
        _ => Err(state.unknown(OpenKind::Span)),
    }
}

ghost use Rattle.std.specs.Prelude.{◌≡◌, IfSome, option_map};
ghost use Rattle.std.specs.Int.{int_wrap, w64};
ghost use Rattle.kern_calls.specs.declared.types.ValueType.{ValueType as Kind};
ghost use Rattle.kern_calls.specs.Types.{bits_of, width_of};
ghost use Rattle.timeline_sem.specs.Numbers.{exact_result};
ghost use Rattle.slack_steps.specs.Known.{IsResult};

// A number that wraps to itself whatever the type, if it is one.
fn word(number: i64) -> Option<i64>
    ensures { IfSome result (λ n. (t : Kind) → int_wrap (width_of t) number ≡ n) }
{
    if number < i32::MIN as i64 || (i32::MAX as i64) < number {
        return None;
    }
    Some(number)
}

// The result of an operator, where it is the same whatever the type.
fn common_result(operator: BinaryOperator, a: i64, b: i64) -> Option<i64>
    ensures { IfSome result (IsResult operator a b) }
{
    let long = operated(operator, ValueType::Int64, a, b)?;
    let short = operated(operator, ValueType::Int32, a, b)?;
    if long != short {
        return None;
    }
    Some(long)
}

// What is left by a quotient, which is the same whatever the type where the divisor is above 0.
fn plain_remainder(a: i64, b: i64) -> Option<i64>
    ensures { IfSome result (IsResult BinaryOperator.Remainder a b) }
{
    if b <= 0 {
        return common_result(BinaryOperator::Remainder, a, b);
    }
    word(a.rem_euclid(b))
}

// A number shifted to the right, which is the same whatever the type where it is shifted by less than 32.
fn plain_right_shift(a: i64, b: i64) -> Option<i64>
    ensures { IfSome result (IsResult BinaryOperator.ShiftRight a b) }
{
    if b < 0 || 31 < b {
        return common_result(BinaryOperator::ShiftRight, a, b);
    }
    word(a >> b as u32)
}

/// The result of an operator on two numbers, where it is seen without the type to be the same whatever the type.
#[inline(always)]
pub fn plain_result(operator: BinaryOperator, a: i64, b: i64) -> Option<i64>
    ensures { IfSome result (IsResult operator a b) }
{
    match operator {
        BinaryOperator::Add => word(a.checked_add(b)?),
        BinaryOperator::Subtract => word(a.checked_sub(b)?),
        BinaryOperator::Multiply => word(a.checked_mul(b)?),
        BinaryOperator::Remainder => plain_remainder(a, b),
        BinaryOperator::ShiftRight => plain_right_shift(a, b),
        BinaryOperator::BitAnd => word(a & b),
        BinaryOperator::BitXor => word(a ^ b),
        BinaryOperator::BitOr => word(a | b),
        _ => common_result(operator, a, b),
    }
}

// The result of an operator on two int64. What kernels do most needs no call.
#[inline(always)]
fn long_result(operator: BinaryOperator, a: i64, b: i64) -> Option<i64>
    ensures { result ≡ option_map (int_wrap w64) (exact_result operator 64 a b) }
{
    match operator {
        BinaryOperator::Add => Some(a.wrapping_add(b)),
        BinaryOperator::Subtract => Some(a.wrapping_sub(b)),
        BinaryOperator::Multiply => Some(a.wrapping_mul(b)),
        _ => operated(operator, ValueType::Int64, a, b),
    }
}

/// The result of an operator on two numbers, wrapped at the width of its type; none of a division by 0.
#[inline(always)]
pub fn typed_result(operator: BinaryOperator, kind: ValueType, a: i64, b: i64) -> Option<i64>
    ensures { result ≡ option_map (int_wrap (width_of kind)) (exact_result operator (bits_of kind) a b) }
{
    match kind {
        ValueType::Int64 => long_result(operator, a, b),
        _ => operated(operator, kind, a, b),
    }
}

/// The result of an operator. A span may be added to or lessened by a number, and a span may be added to a span.
pub fn operate(
    state: &State,
    operator: BinaryOperator,
    kind: ValueType,
    a: Span,
    b: Span,
) -> Result<Span, Reason>
    ensures { DoesAlways result state.now (operate operator kind a b state.now) }
{
    if are_both_numbers(a, b) {
        return operate_numbers(operator, kind, a.least, b.least);
    }
    operate_spans(state, operator, kind, a, b)
}
