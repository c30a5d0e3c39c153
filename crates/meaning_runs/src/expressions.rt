// Expressions.

ghost use Rattle.kern_syntax.specs.TreeOf.{arguments_of, argument_of, expression_of};
ghost use Rattle.kern_syntax.specs.Tree.{no_more};
ghost use Rattle.meaning_steps.specs.Runnable.{IsRunnable, AreRunnable, first_argument};
ghost use Rattle.meaning_frames.specs.Frames.{scope_in};
ghost use Rattle.meaning_runs.specs.Frames.{calls_in};
ghost use Rattle.meaning_state.specs.Does.{Does, DoesItems};
ghost use Rattle.timeline_sem.specs.Expressions.{arguments, expression};

use crate::functions::perform_call;
use kern_names::type_of;
use kern_syntax::{Argument, Expr};
use meaning_frames::Frame;
use meaning_numbers::{changed, compared};
use meaning_state::{Early, State};
use meaning_steps::{is_true, keep, number_of, operate, perform_method};
use std::alloc::Global;

/// The value of an expression, 0 where it has none; 0 or 1 of a truth value. Its operands run from left to right.
#[cycle(runs)]
pub fn evaluate(
    alloc: Global,
    frame: &Frame<'_>,
    state: &mut State<'_>,
    e: &Expr,
) -> Result<i64, Early>
    requires { IsRunnable (expression_of e.now) }
    ensures { Does result state.new (expression (scope_in frame.now) (calls_in frame.now) (expression_of e.now) state.old) }
{
    match e {
        Expr::Integer(value) => Ok(*value as i64),
        Expr::True => Ok(1),
        Expr::False => Ok(0),
        Expr::Variable(x) => Ok(state.number(x.bytes())),
        Expr::Index(array, index) => {
            let place = evaluate(alloc, frame, state, index)?;
            Ok(state.element(array.bytes(), place)?)
        }
        Expr::Group(inner) => evaluate(alloc, frame, state, inner),
        Expr::Unary(operator, operand) => {
            let a = evaluate(alloc, frame, state, operand)?;
            Ok(changed(*operator, type_of(&frame.scope, operand), a))
        }
        Expr::Binary(operator, left, right) => {
            let a = evaluate(alloc, frame, state, left)?;
            let b = evaluate(alloc, frame, state, right)?;
            Ok(operate(*operator, type_of(&frame.scope, e), a, b)?)
        }
        Expr::Compare(comparison, left, right) => {
            let a = evaluate(alloc, frame, state, left)?;
            let b = evaluate(alloc, frame, state, right)?;
            Ok(number_of(compared(*comparison, a, b)))
        }
        Expr::Not(operand) => {
            let a = evaluate(alloc, frame, state, operand)?;
            Ok(number_of(!is_true(a)))
        }
        Expr::And(left, right) => {
            let a = evaluate(alloc, frame, state, left)?;
            if !is_true(a) {
                return Ok(0);
            }
            evaluate(alloc, frame, state, right)
        }
        Expr::Or(left, right) => {
            let a = evaluate(alloc, frame, state, left)?;
            if is_true(a) {
                return Ok(1);
            }
            evaluate(alloc, frame, state, right)
        }
        Expr::Call(function, given) => {
            let numbers = evaluate_all(alloc, frame, state, given)?;
            perform_call(alloc, frame, state, function.bytes(), given, &numbers)
        }
        Expr::Method(object, method, given) => {
            let numbers = evaluate_all(alloc, frame, state, given)?;
            perform_method(state, object.bytes(), method.bytes(), given, &numbers)
        }
    }
}

// The values of a call's arguments, from left to right, without its texts.
#[cycle(runs)]
fn evaluate_all(
    alloc: Global,
    frame: &Frame<'_>,
    state: &mut State<'_>,
    given: &[Argument],
) -> Result<Vec<i64>, Early>
    requires { AreRunnable (arguments_of given.now) }
    ensures { DoesItems result state.new (arguments (scope_in frame.now) (calls_in frame.now) (arguments_of given.now) state.old) }
{
    let mut numbers = Vec::new(alloc);
    for argument in given.iter() {
        let number = evaluate_argument(alloc, frame, state, argument)?;
        keep(&mut numbers, number)?;
    }
    Ok(numbers)
}

// The value of an argument, none of a text.
#[cycle(runs)]
fn evaluate_argument(
    alloc: Global,
    frame: &Frame<'_>,
    state: &mut State<'_>,
    argument: &Argument,
) -> Result<Option<i64>, Early>
    requires { AreRunnable (argument_of argument.now no_more) }
    ensures { Does result state.new (first_argument (scope_in frame.now) (calls_in frame.now) (argument_of argument.now no_more) state.old) }
{
    match argument {
        Argument::Value(e) => {
            let number = evaluate(alloc, frame, state, e)?;
            Ok(Some(number))
        }
        Argument::Text(_) => Ok(None),
    }
}
