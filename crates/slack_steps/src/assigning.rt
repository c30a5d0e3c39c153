// Sums that are assigned.

ghost use Rattle.slack_state.specs.Does.{Does};
ghost use Rattle.slack_steps.specs.Turns.{set_sum};

use crate::operating::operate;
use kern_calls::ValueType;
use kern_names::{Scope, type_of_name};
use kern_syntax::Augment;
use meaning_steps::operator_of;
use slack_meaning::Span;
use slack_state::{Early, Held, Reason, State};
use std::alloc::Global;

/// An element becomes what was read from it and what is added.
pub fn set_sum(
    alloc: Global,
    state: &mut State,
    x: &[u8],
    place: Span,
    operator: Augment,
    held: Span,
    added: Span,
) -> Result<(), Early>
    ensures { Does result state.new (set_sum x.now place operator held added state.old) }
{
    let new = operate(state, operator_of(operator), ValueType::Int64, held, added)?;
    state.set_element(alloc, x, place, new)
}

ghost use Rattle.kern_names.specs.ScopeOf.{scope_of};
ghost use Rattle.slack_state.specs.Does.{DoesAlways};
ghost use Rattle.slack_steps.specs.Turns.{hold_sum};

/// A name becomes what it held and what is added: a number wraps at the width of the name's type.
pub fn hold_sum(
    scope: &Scope<'_>,
    state: &mut State,
    x: &[u8],
    operator: Augment,
    held: Span,
    added: Span,
) -> Result<(), Reason>
    ensures { DoesAlways result state.new (hold_sum (scope_of scope.now) x.now operator held added state.old) }
{
    let kind = type_of_name(scope, x);
    let new = operate(state, operator_of(operator), kind, held, added)?;
    state.hold(x, Held::Number(new));
    Ok(())
}
