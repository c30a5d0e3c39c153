// Expressions.

ghost use Rattle.kern_syntax.specs.TreeOf.{arguments_of, argument_of, expression_of};
ghost use Rattle.kern_syntax.specs.Tree.{no_more};
ghost use Rattle.meaning_steps.specs.Runnable.{IsRunnable, AreRunnable};
ghost use Rattle.meaning_frames.specs.Frames.{scope_in};
ghost use Rattle.slack_runs.specs.Frames.{calls_in};
ghost use Rattle.slack_runs.specs.Values.{DoesItems, first_argument};
ghost use Rattle.slack_state.specs.Does.{Does};
ghost use Rattle.slack_meaning.specs.Expressions.{arguments, expression};

use crate::functions::perform_call;
use kern_names::type_of;
use kern_syntax::{Argument, Expr};
use meaning_frames::Frame;
use meaning_numbers::{changed, compared};
use meaning_steps::{is_true, number_of};
use slack_meaning::Span;
use slack_state::{Early, State, exactly};
use slack_steps::{known_number, operate, perform_method};
use std::alloc::{AllocError, Global};

/// The value of an expression, 0 where it has none; 0 or 1 of a truth value. Its operands run from left to right.
#[cycle(runs)]
pub fn evaluate(
    alloc: Global,
    frame: &Frame<'_>,
    state: &mut State,
    e: &Expr,
) -> Result<Span, Early>
    requires { IsRunnable (expression_of e.now) }
    ensures { Does result state.new (expression (scope_in frame.now) (calls_in frame.now) (expression_of e.now) state.old) }
{
    match known_number(&frame.scope, state, e) {
        Some(number) => Ok(exactly(number)),
        None => evaluate_parts(alloc, frame, state, e),
    }
}

/// The same, operand by operand. It stands apart because what an operand may end with takes much room.
#[inline(never)]
#[cycle(runs)]
pub fn evaluate_parts(
    alloc: Global,
    frame: &Frame<'_>,
    state: &mut State,
    e: &Expr,
) -> Result<Span, Early>
    requires { IsRunnable (expression_of e.now) }
    ensures { Does result state.new (expression (scope_in frame.now) (calls_in frame.now) (expression_of e.now) state.old) }
{
    match e {
        Expr::Integer(value) => Ok(exactly(*value as i64)),
        Expr::True => Ok(exactly(1)),
        Expr::False => Ok(exactly(0)),
        Expr::Variable(x) => Ok(state.span(x.bytes())),
        Expr::Index(array, index) => {
            let place = evaluate_parts(alloc, frame, state, index)?;
            Ok(state.element(array.bytes(), place)?)
        }
        Expr::Group(inner) => evaluate_parts(alloc, frame, state, inner),
        Expr::Unary(operator, operand) => {
            let a = evaluate_parts(alloc, frame, state, operand)?;
            let number = state.number(a)?;
            Ok(exactly(changed(*operator, type_of(&frame.scope, operand), number)))
        }
        Expr::Binary(operator, left, right) => {
            let a = evaluate_parts(alloc, frame, state, left)?;
            let b = evaluate_parts(alloc, frame, state, right)?;
            Ok(operate(state, *operator, type_of(&frame.scope, e), a, b)?)
        }
        Expr::Compare(comparison, left, right) => {
            let a = evaluate_parts(alloc, frame, state, left)?;
            let b = evaluate_parts(alloc, frame, state, right)?;
            let m = state.number(a)?;
            let n = state.number(b)?;
            Ok(exactly(number_of(compared(*comparison, m, n))))
        }
        Expr::Not(operand) => {
            let a = evaluate_parts(alloc, frame, state, operand)?;
            let number = state.number(a)?;
            Ok(exactly(number_of(!is_true(number))))
        }
        Expr::And(left, right) => {
            let a = evaluate_parts(alloc, frame, state, left)?;
            if !is_true(state.number(a)?) {
                return Ok(exactly(0));
            }
            evaluate_parts(alloc, frame, state, right)
        }
        Expr::Or(left, right) => {
            let a = evaluate_parts(alloc, frame, state, left)?;
            if is_true(state.number(a)?) {
                return Ok(exactly(1));
            }
            evaluate_parts(alloc, frame, state, right)
        }
        Expr::Call(function, given) => {
            let spans = evaluate_all(alloc, frame, state, given)?;
            perform_call(alloc, frame, state, function.bytes(), given, &spans)
        }
        Expr::Method(object, method, given) => {
            let spans = evaluate_all(alloc, frame, state, given)?;
            perform_method(state, object.bytes(), method.bytes(), given, &spans)
        }
    }
}

// The values of a call's arguments, from left to right, without its texts.
#[cycle(runs)]
fn evaluate_all(
    alloc: Global,
    frame: &Frame<'_>,
    state: &mut State,
    given: &[Argument],
) -> Result<Vec<Span>, Early>
    requires { AreRunnable (arguments_of given.now) }
    ensures { DoesItems result state.new (arguments (scope_in frame.now) (calls_in frame.now) (arguments_of given.now) state.old) }
{
    let mut spans = Vec::new(alloc);
    for argument in given.iter() {
        let span = evaluate_argument(alloc, frame, state, argument)?;
        keep(&mut spans, span)?;
    }
    Ok(spans)
}

// The value of an argument, none of a text.
#[cycle(runs)]
fn evaluate_argument(
    alloc: Global,
    frame: &Frame<'_>,
    state: &mut State,
    argument: &Argument,
) -> Result<Option<Span>, Early>
    requires { AreRunnable (argument_of argument.now no_more) }
    ensures { Does result state.new (first_argument (scope_in frame.now) (calls_in frame.now) (argument_of argument.now no_more) state.old) }
{
    match argument {
        Argument::Value(e) => {
            let span = evaluate(alloc, frame, state, e)?;
            Ok(Some(span))
        }
        Argument::Text(_) => Ok(None),
    }
}

ghost use Rattle.std.specs.Prelude.{◌≡◌, ◌++◌, OnOk, option_to_list};

// Puts a value behind others, if there is one. The only error is want of memory.
fn keep(spans: &mut Vec<Span>, span: Option<Span>) -> Result<(), AllocError>
    ensures { OnOk result (spans.new.items ≡ spans.old.items ++ option_to_list span) }
{
    if let Some(kept) = span {
        spans.push(kept)?;
    }
    Ok(())
}
