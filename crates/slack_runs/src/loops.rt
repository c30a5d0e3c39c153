// Loops, turn by turn.

ghost use Rattle.std.specs.Prelude.{⊤, Some, None};
ghost use Rattle.std.specs.Int.{int_gap};
ghost use Rattle.kern_syntax.specs.Tree.{for_range};
ghost use Rattle.kern_syntax.specs.TreeOf.{block_of, expression_of};
ghost use Rattle.meaning_frames.specs.Frames.{scope_in};
ghost use Rattle.slack_state.specs.Does.{Does};
ghost use Rattle.meaning_steps.specs.Runnable.{IsRunnable};
ghost use Rattle.meaning_steps.specs.RunnableStatements.{IsRunnableBlock};
ghost use Rattle.slack_meaning.specs.Actions.{Action};
ghost use Rattle.slack_meaning.specs.Expressions.{expression};
ghost use Rattle.slack_meaning.specs.Statements.{block, for_turns, statement, turn, turns_between, while_loop};
ghost use Rattle.slack_runs.specs.Frames.{calls_in};
ghost use Rattle.slack_steps.specs.Turns.{GoesOn, set_then};

use crate::blocks::run_block;
use crate::expressions::evaluate;
use kern_syntax::{Block, Expr};
use meaning_frames::Frame;
use meaning_steps::is_true;
use slack_meaning::Span;
use slack_state::{Early, Held, Reason, State, exactly};
use slack_steps::settled;
use std::alloc::Global;

/// A `while`, whose turns the units left bound.
#[cycle(runs)]
pub fn run_while(
    alloc: Global,
    frame: &Frame<'_>,
    state: &mut State,
    body: &Block,
    condition: &Expr,
) -> Result<(), Early>
    requires condition { IsRunnable (expression_of condition.now) }
    requires body { IsRunnableBlock (block_of body.now) }
    ensures { Does result state.new (while_loop (expression (scope_in frame.now) (calls_in frame.now) (expression_of condition.now)) (block (scope_in frame.now) (calls_in frame.now) (block_of body.now)) state.old) }
{
    let mut left = state.units();
    loop {
        let holds = evaluate(alloc, frame, state, condition)?;
        if !is_true(state.number(holds)?) {
            return Ok(());
        }
        if left == 0 {
            return Err(Early::Ended(Reason::Budget));
        }
        left -= 1;
        if !run_turn(alloc, frame, state, body)? {
            return Ok(());
        }
    }
}

// A turn of a `while`, which takes a unit. Whether the loop goes on.
#[cycle(runs)]
fn run_turn(
    alloc: Global,
    frame: &Frame<'_>,
    state: &mut State,
    body: &Block,
) -> Result<bool, Early>
    requires { IsRunnableBlock (block_of body.now) }
    ensures { (again : Action ⊤) →
        GoesOn result state.new (turn (block (scope_in frame.now) (calls_in frame.now) (block_of body.now)) again state.old) again }
{
    state.take_unit()?;
    settled(run_block(alloc, frame, state, body))
}

/// A `for` from 0 to a value.
#[cycle(runs)]
pub fn run_for_to(
    alloc: Global,
    frame: &Frame<'_>,
    state: &mut State,
    body: &Block,
    x: &[u8],
    to: &Expr,
) -> Result<(), Early>
    requires to { IsRunnable (expression_of to.now) }
    requires body { IsRunnableBlock (block_of body.now) }
    ensures { Does result state.new (statement (scope_in frame.now) (calls_in frame.now) (for_range x.now None (expression_of to.now) (block_of body.now)) state.old) }
{
    let end = evaluate(alloc, frame, state, to)?;
    run_for(alloc, frame, state, body, x, exactly(0), end)
}

/// A `for` from a value to another, which both run before either is used.
#[cycle(runs)]
pub fn run_for_from_to(
    alloc: Global,
    frame: &Frame<'_>,
    state: &mut State,
    body: &Block,
    x: &[u8],
    from: &Expr,
    to: &Expr,
) -> Result<(), Early>
    requires from { IsRunnable (expression_of from.now) }
    requires to { IsRunnable (expression_of to.now) }
    requires body { IsRunnableBlock (block_of body.now) }
    ensures { Does result state.new (statement (scope_in frame.now) (calls_in frame.now) (for_range x.now (Some (expression_of from.now)) (expression_of to.now) (block_of body.now)) state.old) }
{
    let start = evaluate(alloc, frame, state, from)?;
    let end = evaluate(alloc, frame, state, to)?;
    run_for(alloc, frame, state, body, x, start, end)
}

// A `for` between two values, which must be numbers.
#[cycle(runs)]
fn run_for(
    alloc: Global,
    frame: &Frame<'_>,
    state: &mut State,
    body: &Block,
    x: &[u8],
    start: Span,
    end: Span,
) -> Result<(), Early>
    requires { IsRunnableBlock (block_of body.now) }
    ensures { Does result state.new (turns_between x.now start end (block (scope_in frame.now) (calls_in frame.now) (block_of body.now)) state.old) }
{
    let from = state.number(start)?;
    let to = state.number(end)?;
    run_turns(alloc, frame, state, body, x, from, to)
}

// The turns of a `for` between two numbers.
#[cycle(runs)]
fn run_turns(
    alloc: Global,
    frame: &Frame<'_>,
    state: &mut State,
    body: &Block,
    x: &[u8],
    from: i64,
    to: i64,
) -> Result<(), Early>
    requires { IsRunnableBlock (block_of body.now) }
    ensures { Does result state.new (for_turns (int_gap from to) x.now from (block (scope_in frame.now) (calls_in frame.now) (block_of body.now)) state.old) }
{
    let mut at = from;
    while at < to {
        if !run_for_turn(alloc, frame, state, body, x, at)? {
            return Ok(());
        }
        at += 1;
    }
    Ok(())
}

// A turn of a `for`, which takes a unit and sets the variable. Whether the loop goes on.
#[cycle(runs)]
fn run_for_turn(
    alloc: Global,
    frame: &Frame<'_>,
    state: &mut State,
    body: &Block,
    x: &[u8],
    at: i64,
) -> Result<bool, Early>
    requires { IsRunnableBlock (block_of body.now) }
    ensures { (again : Action ⊤) →
        GoesOn result state.new (turn (set_then x.now at (block (scope_in frame.now) (calls_in frame.now) (block_of body.now))) again state.old) again }
{
    state.take_unit()?;
    state.hold(x, Held::Number(exactly(at)));
    settled(run_block(alloc, frame, state, body))
}
