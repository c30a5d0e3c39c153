// Statements without a block.

ghost use Rattle.std.specs.Prelude.{map, option_map};
ghost use Rattle.kern_syntax.specs.TreeOf.{assign_to, augment_of, expression_of};
ghost use Rattle.kern_syntax.specs.Tree.{assign_repeated, assign_list};
ghost use Rattle.kern_syntax.specs.Tree as T;
ghost use Rattle.meaning_frames.specs.Frames.{scope_in};
ghost use Rattle.meaning_steps.specs.Runnable.{IsRunnable};
ghost use Rattle.meaning_steps.specs.RunnableStatements.{EachRunnable, IfThereRunnable, IsRunnableStatement};
ghost use Rattle.slack_meaning.specs.Statements.{statement, values};
ghost use Rattle.slack_runs.specs.Frames.{calls_in};
ghost use Rattle.slack_runs.specs.Values.{DoesItems};
ghost use Rattle.slack_state.specs.Does.{Does};

use crate::expressions::evaluate;
use kern_syntax::{Augment, Expr, Target};
use meaning_frames::Frame;
use slack_meaning::Span;
use slack_state::{Early, Held, Reason, State, exactly};
use slack_steps::{hold_sum, set_sum};
use std::alloc::Global;

/// An expression whose value is dropped.
#[cycle(runs)]
pub fn evaluate_alone(
    alloc: Global,
    frame: &Frame<'_>,
    state: &mut State,
    e: &Expr,
) -> Result<(), Early>
    requires { IsRunnable (expression_of e.now) }
    ensures { Does result state.new (statement (scope_in frame.now) (calls_in frame.now) (T.evaluate (expression_of e.now)) state.old) }
{
    evaluate(alloc, frame, state, e)?;
    Ok(())
}

/// A `return`, which ends the function with its value.
#[cycle(runs)]
pub fn give_back(
    alloc: Global,
    frame: &Frame<'_>,
    state: &mut State,
    value: &Option<Expr>,
) -> Result<(), Early>
    requires { IfThereRunnable (option_map expression_of value.now) }
    ensures { Does result state.new (statement (scope_in frame.now) (calls_in frame.now) (T.return (option_map expression_of value.now)) state.old) }
{
    match value {
        None => Err(Early::Ended(Reason::Return(exactly(0)))),
        Some(e) => {
            let span = evaluate(alloc, frame, state, e)?;
            Err(Early::Ended(Reason::Return(span)))
        }
    }
}

/// An assignment to a name, or to an element of an array, whose value runs before its index.
#[cycle(runs)]
pub fn assign(
    alloc: Global,
    frame: &Frame<'_>,
    state: &mut State,
    target: &Target,
    e: &Expr,
) -> Result<(), Early>
    requires { IsRunnableStatement (assign_to target.now (expression_of e.now)) }
    ensures { Does result state.new (statement (scope_in frame.now) (calls_in frame.now) (assign_to target.now (expression_of e.now)) state.old) }
{
    match target {
        Target::Variable(x) => {
            let span = evaluate(alloc, frame, state, e)?;
            state.hold(x.bytes(), Held::Number(span));
            Ok(())
        }
        Target::Element(x, index) => {
            let span = evaluate(alloc, frame, state, e)?;
            let place = evaluate(alloc, frame, state, index)?;
            state.set_element(alloc, x.bytes(), place, span)
        }
    }
}

/// An augmented assignment: the target is read first.
#[cycle(runs)]
pub fn augment(
    alloc: Global,
    frame: &Frame<'_>,
    state: &mut State,
    target: &Target,
    operator: Augment,
    e: &Expr,
) -> Result<(), Early>
    requires { IsRunnableStatement (augment_of target.now operator (expression_of e.now)) }
    ensures { Does result state.new (statement (scope_in frame.now) (calls_in frame.now) (augment_of target.now operator (expression_of e.now)) state.old) }
{
    match target {
        Target::Variable(x) => augment_name(alloc, frame, state, x.bytes(), operator, e),
        Target::Element(x, index) => {
            augment_element(alloc, frame, state, x.bytes(), index, operator, e)
        }
    }
}

#[cycle(runs)]
fn augment_name(
    alloc: Global,
    frame: &Frame<'_>,
    state: &mut State,
    x: &[u8],
    operator: Augment,
    e: &Expr,
) -> Result<(), Early>
    requires { IsRunnable (expression_of e.now) }
    ensures { Does result state.new (statement (scope_in frame.now) (calls_in frame.now) (T.augment x.now operator (expression_of e.now)) state.old) }
{
    let held = state.span(x);
    let added = evaluate(alloc, frame, state, e)?;
    hold_sum(&frame.scope, state, x, operator, held, added)?;
    Ok(())
}

#[cycle(runs)]
fn augment_element(
    alloc: Global,
    frame: &Frame<'_>,
    state: &mut State,
    x: &[u8],
    index: &Expr,
    operator: Augment,
    e: &Expr,
) -> Result<(), Early>
    requires index { IsRunnable (expression_of index.now) }
    requires value { IsRunnable (expression_of e.now) }
    ensures { Does result state.new (statement (scope_in frame.now) (calls_in frame.now) (T.augment_element x.now (expression_of index.now) operator (expression_of e.now)) state.old) }
{
    let place = evaluate(alloc, frame, state, index)?;
    let held = state.element(x, place)?;
    let added = evaluate(alloc, frame, state, e)?;
    set_sum(alloc, state, x, place, operator, held, added)
}

/// An array of equal elements is assigned.
#[cycle(runs)]
pub fn assign_repeated(
    alloc: Global,
    frame: &Frame<'_>,
    state: &mut State,
    x: &[u8],
    e: &Expr,
    length: u64,
) -> Result<(), Early>
    requires { IsRunnable (expression_of e.now) }
    ensures { Does result state.new (statement (scope_in frame.now) (calls_in frame.now) (assign_repeated x.now (expression_of e.now) length) state.old) }
{
    let span = evaluate(alloc, frame, state, e)?;
    let spans = vec![in alloc; span; length as usize]?;
    state.hold(x, Held::Array(spans));
    Ok(())
}

/// An array of some elements is assigned, which all run before.
#[cycle(runs)]
pub fn assign_list(
    alloc: Global,
    frame: &Frame<'_>,
    state: &mut State,
    x: &[u8],
    elements: &[Expr],
) -> Result<(), Early>
    requires { EachRunnable (map expression_of elements.now) }
    ensures { Does result state.new (statement (scope_in frame.now) (calls_in frame.now) (assign_list x.now (map expression_of elements.now)) state.old) }
{
    let spans = evaluate_each(alloc, frame, state, elements)?;
    state.hold(x, Held::Array(spans));
    Ok(())
}

// The values of some expressions, from left to right.
#[cycle(runs)]
fn evaluate_each(
    alloc: Global,
    frame: &Frame<'_>,
    state: &mut State,
    elements: &[Expr],
) -> Result<Vec<Span>, Early>
    requires { EachRunnable (map expression_of elements.now) }
    ensures { DoesItems result state.new (values (scope_in frame.now) (calls_in frame.now) (map expression_of elements.now) state.old) }
{
    let mut spans = Vec::new(alloc);
    for element in elements.iter() {
        spans.push(evaluate(alloc, frame, state, element)?)?;
    }
    Ok(spans)
}
