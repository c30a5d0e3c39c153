// Loops, turn by turn.

ghost use Rattle.std.specs.Prelude.{⊤};
ghost use Rattle.std.specs.Int.{int_gap};
ghost use Rattle.kern_syntax.specs.TreeOf.{block_of, expression_of};
ghost use Rattle.meaning_frames.specs.Frames.{scope_in};
ghost use Rattle.meaning_runs.specs.Frames.{calls_in};
ghost use Rattle.meaning_state.specs.Does.{Does};
ghost use Rattle.meaning_steps.specs.Runnable.{IsRunnable};
ghost use Rattle.meaning_steps.specs.RunnableStatements.{IsRunnableBlock};
ghost use Rattle.meaning_steps.specs.Turns.{GoesOn, set_then};
ghost use Rattle.timeline_sem.specs.Actions.{Action};
ghost use Rattle.timeline_sem.specs.Expressions.{expression};
ghost use Rattle.timeline_sem.specs.Statements.{block, for_turns, turn, while_loop};

use crate::blocks::run_block;
use crate::expressions::evaluate;
use kern_syntax::{Block, Expr};
use meaning_frames::Frame;
use meaning_state::{Early, Held, Reason, State};
use meaning_steps::{is_true, settled};
use std::alloc::Global;

/// A `while`, whose turns the units left bound.
#[cycle(runs)]
pub fn run_while(
    alloc: Global,
    frame: &Frame<'_>,
    state: &mut State<'_>,
    body: &Block,
    condition: &Expr,
) -> Result<(), Early>
    requires condition { IsRunnable (expression_of condition.now) }
    requires body { IsRunnableBlock (block_of body.now) }
    ensures { Does result state.new (while_loop (expression (scope_in frame.now) (calls_in frame.now) (expression_of condition.now)) (block (scope_in frame.now) (calls_in frame.now) (block_of body.now)) state.old) }
{
    let mut left = state.units();
    loop {
        if !is_true(evaluate(alloc, frame, state, condition)?) {
            return Ok(());
        }
        if left == 0 {
            return Err(Early::Ended(Reason::Budget));
        }
        left -= 1;
        if !run_turn(alloc, frame, state, body)? {
            return Ok(());
        }
    }
}

// A turn of a `while`, which takes a unit. Whether the loop goes on.
#[cycle(runs)]
fn run_turn(
    alloc: Global,
    frame: &Frame<'_>,
    state: &mut State<'_>,
    body: &Block,
) -> Result<bool, Early>
    requires { IsRunnableBlock (block_of body.now) }
    ensures { (again : Action ⊤) →
        GoesOn result state.new (turn (block (scope_in frame.now) (calls_in frame.now) (block_of body.now)) again state.old) again }
{
    state.take_unit()?;
    settled(run_block(alloc, frame, state, body))
}

/// A `for` between two numbers.
#[cycle(runs)]
pub fn run_for(
    alloc: Global,
    frame: &Frame<'_>,
    state: &mut State<'_>,
    body: &Block,
    x: &[u8],
    from: i64,
    to: i64,
) -> Result<(), Early>
    requires { IsRunnableBlock (block_of body.now) }
    ensures { Does result state.new (for_turns (int_gap from to) x.now from (block (scope_in frame.now) (calls_in frame.now) (block_of body.now)) state.old) }
{
    let mut at = from;
    while at < to {
        if !run_for_turn(alloc, frame, state, body, x, at)? {
            return Ok(());
        }
        at += 1;
    }
    Ok(())
}

// A turn of a `for`, which takes a unit and sets the variable. Whether the loop goes on.
#[cycle(runs)]
fn run_for_turn(
    alloc: Global,
    frame: &Frame<'_>,
    state: &mut State<'_>,
    body: &Block,
    x: &[u8],
    at: i64,
) -> Result<bool, Early>
    requires { IsRunnableBlock (block_of body.now) }
    ensures { (again : Action ⊤) →
        GoesOn result state.new (turn (set_then x.now at (block (scope_in frame.now) (calls_in frame.now) (block_of body.now))) again state.old) again }
{
    state.take_unit()?;
    state.hold(x, Held::Number(at));
    settled(run_block(alloc, frame, state, body))
}
