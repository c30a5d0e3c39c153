// Statements without a block.

ghost use Rattle.std.specs.Prelude.{map, option_map};
ghost use Rattle.kern_syntax.specs.TreeOf.{assign_to, augment_of, expression_of};
ghost use Rattle.kern_syntax.specs.Tree.{assign_repeated, assign_list};
ghost use Rattle.kern_syntax.specs.Tree as T;
ghost use Rattle.meaning_frames.specs.Frames.{scope_in};
ghost use Rattle.meaning_runs.specs.Frames.{calls_in};
ghost use Rattle.meaning_state.specs.Does.{Does, DoesItems};
ghost use Rattle.meaning_steps.specs.Runnable.{IsRunnable};
ghost use Rattle.meaning_steps.specs.RunnableStatements.{EachRunnable, IfThereRunnable, IsRunnableStatement};
ghost use Rattle.timeline_sem.specs.Statements.{statement, values};

use crate::expressions::evaluate;
use kern_syntax::{Augment, Expr, Target};
use meaning_frames::Frame;
use meaning_state::{Early, Held, Reason, State};
use meaning_steps::{hold_sum, repeated, set_sum};
use std::alloc::Global;

/// A `return`, which ends the function with its value.
#[cycle(runs)]
pub fn give_back(
    alloc: Global,
    frame: &Frame<'_>,
    state: &mut State<'_>,
    value: &Option<Expr>,
) -> Result<(), Early>
    requires { IfThereRunnable (option_map expression_of value.now) }
    ensures { Does result state.new (statement (scope_in frame.now) (calls_in frame.now) (T.return (option_map expression_of value.now)) state.old) }
{
    match value {
        None => Err(Early::Ended(Reason::Return(0))),
        Some(e) => {
            let number = evaluate(alloc, frame, state, e)?;
            Err(Early::Ended(Reason::Return(number)))
        }
    }
}

/// An assignment to a name, or to an element of an array, whose value runs before its index.
#[cycle(runs)]
pub fn assign(
    alloc: Global,
    frame: &Frame<'_>,
    state: &mut State<'_>,
    target: &Target,
    e: &Expr,
) -> Result<(), Early>
    requires { IsRunnableStatement (assign_to target.now (expression_of e.now)) }
    ensures { Does result state.new (statement (scope_in frame.now) (calls_in frame.now) (assign_to target.now (expression_of e.now)) state.old) }
{
    match target {
        Target::Variable(x) => {
            let number = evaluate(alloc, frame, state, e)?;
            state.hold(x.bytes(), Held::Number(number));
            Ok(())
        }
        Target::Element(x, index) => {
            let number = evaluate(alloc, frame, state, e)?;
            let place = evaluate(alloc, frame, state, index)?;
            state.set_element(alloc, x.bytes(), place, number)
        }
    }
}

/// An augmented assignment: the target is read first.
#[cycle(runs)]
pub fn augment(
    alloc: Global,
    frame: &Frame<'_>,
    state: &mut State<'_>,
    target: &Target,
    operator: Augment,
    e: &Expr,
) -> Result<(), Early>
    requires { IsRunnableStatement (augment_of target.now operator (expression_of e.now)) }
    ensures { Does result state.new (statement (scope_in frame.now) (calls_in frame.now) (augment_of target.now operator (expression_of e.now)) state.old) }
{
    match target {
        Target::Variable(x) => augment_name(alloc, frame, state, x.bytes(), operator, e),
        Target::Element(x, index) => {
            augment_element(alloc, frame, state, x.bytes(), index, operator, e)
        }
    }
}

#[cycle(runs)]
fn augment_name(
    alloc: Global,
    frame: &Frame<'_>,
    state: &mut State<'_>,
    x: &[u8],
    operator: Augment,
    e: &Expr,
) -> Result<(), Early>
    requires { IsRunnable (expression_of e.now) }
    ensures { Does result state.new (statement (scope_in frame.now) (calls_in frame.now) (T.augment x.now operator (expression_of e.now)) state.old) }
{
    let held = state.number(x);
    let added = evaluate(alloc, frame, state, e)?;
    hold_sum(&frame.scope, state, x, operator, held, added)?;
    Ok(())
}

#[cycle(runs)]
fn augment_element(
    alloc: Global,
    frame: &Frame<'_>,
    state: &mut State<'_>,
    x: &[u8],
    index: &Expr,
    operator: Augment,
    e: &Expr,
) -> Result<(), Early>
    requires index { IsRunnable (expression_of index.now) }
    requires value { IsRunnable (expression_of e.now) }
    ensures { Does result state.new (statement (scope_in frame.now) (calls_in frame.now) (T.augment_element x.now (expression_of index.now) operator (expression_of e.now)) state.old) }
{
    let place = evaluate(alloc, frame, state, index)?;
    let held = state.element(x, place)?;
    let added = evaluate(alloc, frame, state, e)?;
    set_sum(alloc, state, x, place, operator, held, added)
}

/// An array of equal elements is assigned.
#[cycle(runs)]
pub fn assign_repeated(
    alloc: Global,
    frame: &Frame<'_>,
    state: &mut State<'_>,
    x: &[u8],
    e: &Expr,
    length: u64,
) -> Result<(), Early>
    requires { IsRunnable (expression_of e.now) }
    ensures { Does result state.new (statement (scope_in frame.now) (calls_in frame.now) (assign_repeated x.now (expression_of e.now) length) state.old) }
{
    let number = evaluate(alloc, frame, state, e)?;
    let numbers = repeated(alloc, number, length)?;
    state.hold(x, Held::Array(numbers));
    Ok(())
}

/// An array of some elements is assigned, which all run before.
#[cycle(runs)]
pub fn assign_list(
    alloc: Global,
    frame: &Frame<'_>,
    state: &mut State<'_>,
    x: &[u8],
    elements: &[Expr],
) -> Result<(), Early>
    requires { EachRunnable (map expression_of elements.now) }
    ensures { Does result state.new (statement (scope_in frame.now) (calls_in frame.now) (assign_list x.now (map expression_of elements.now)) state.old) }
{
    let numbers = evaluate_each(alloc, frame, state, elements)?;
    state.hold(x, Held::Array(numbers));
    Ok(())
}

// The values of some expressions, from left to right.
#[cycle(runs)]
fn evaluate_each(
    alloc: Global,
    frame: &Frame<'_>,
    state: &mut State<'_>,
    elements: &[Expr],
) -> Result<Vec<i64>, Early>
    requires { EachRunnable (map expression_of elements.now) }
    ensures { DoesItems result state.new (values (scope_in frame.now) (calls_in frame.now) (map expression_of elements.now) state.old) }
{
    let mut numbers = Vec::new(alloc);
    for element in elements.iter() {
        numbers.push(evaluate(alloc, frame, state, element)?)?;
    }
    Ok(numbers)
}
