// Sums that are assigned, and lists of numbers.

ghost use Rattle.std.specs.Prelude.{◌≡◌};
ghost use Rattle.meaning_state.specs.Does.{Does, DoesAlways};
ghost use Rattle.timeline_sem.specs.Statements.{operator_of};

use crate::operating::operate;
use kern_calls::ValueType;
use kern_names::{Scope, type_of_name};
use kern_syntax::{Augment, BinaryOperator};
use meaning_state::{Early, Held, Reason, State};
use std::alloc::{AllocError, Global};

/// The operator of an augmented assignment.
pub fn operator_of(operator: Augment) -> BinaryOperator
    ensures { result ≡ operator_of operator }
{
    match operator {
        Augment::Add => BinaryOperator::Add,
        Augment::Subtract => BinaryOperator::Subtract,
    }
}

ghost use Rattle.meaning_steps.specs.Turns.{set_sum};

/// An element becomes what was read from it and what is added.
pub fn set_sum(
    alloc: Global,
    state: &mut State<'_>,
    x: &[u8],
    place: i64,
    operator: Augment,
    held: i64,
    added: i64,
) -> Result<(), Early>
    ensures { Does result state.new (set_sum x.now place operator held added state.old) }
{
    let new = operate(operator_of(operator), ValueType::Int64, held, added)?;
    state.set_element(alloc, x, place, new)
}

ghost use Rattle.kern_names.specs.ScopeOf.{scope_of};
ghost use Rattle.meaning_steps.specs.Turns.{hold_sum};

/// A name becomes what it held and what is added, wrapped at the width of its type.
pub fn hold_sum(
    scope: &Scope<'_>,
    state: &mut State<'_>,
    x: &[u8],
    operator: Augment,
    held: i64,
    added: i64,
) -> Result<(), Reason>
    ensures { DoesAlways result state.new (hold_sum (scope_of scope.now) x.now operator held added state.old) }
{
    let kind = type_of_name(scope, x);
    let new = operate(operator_of(operator), kind, held, added)?;
    state.hold(x, Held::Number(new));
    Ok(())
}

ghost use Rattle.std.specs.Prelude.{IfOk, replicate};

/// So many equal numbers. The only error is want of memory.
pub fn repeated(alloc: Global, number: i64, length: u64) -> Result<Vec<i64>, AllocError>
    ensures { IfOk result (λ numbers. numbers.items ≡ replicate length number) }
{
    let mut numbers = Vec::new(alloc);
    for _ in 0..length {
        numbers.push(number)?;
    }
    Ok(numbers)
}

ghost use Rattle.std.specs.Prelude.{◌++◌, OnOk, option_to_list};

/// Puts a number behind others, if there is one. The only error is want of memory.
pub fn keep(numbers: &mut Vec<i64>, number: Option<i64>) -> Result<(), AllocError>
    ensures { OnOk result (numbers.new.items ≡ numbers.old.items ++ option_to_list number) }
{
    if let Some(kept) = number {
        numbers.push(kept)?;
    }
    Ok(())
}
