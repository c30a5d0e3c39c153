// Operators and truth values.

ghost use Rattle.std.specs.Prelude.{◌≡◌};
ghost use Rattle.meaning_state.specs.Does.{DoesAlways};
ghost use Rattle.rtio_types.specs.Integers.{is_true, number_of};
ghost use Rattle.timeline_sem.specs.Actions.{State as Meant};
ghost use Rattle.timeline_sem.specs.Expressions.{operate};

use kern_calls::ValueType;
use kern_syntax::BinaryOperator;
use meaning_numbers::operated;
use meaning_state::Reason;
use rtio_types::Exc;

/// Whether a number stands for True.
pub fn is_true(number: i64) -> bool
    ensures { result ≡ is_true number }
{
    number != 0
}

/// The number of a truth value.
pub fn number_of(truth: bool) -> i64
    ensures { result ≡ number_of truth }
{
    if truth { 1 } else { 0 }
}

/// The result of an operator, wrapped at the width of its type. A divisor of 0 raises.
pub fn operate(operator: BinaryOperator, kind: ValueType, a: i64, b: i64) -> Result<i64, Reason>
    ensures { (s : Meant) → DoesAlways result s (operate operator kind a b s) }
{
    match operated(operator, kind, a, b) {
        Some(number) => Ok(number),
        None => Err(Reason::Raised(Exc::ZeroDivisionError)),
    }
}
