// Blocks on the timeline, and handlers.

ghost use Rattle.kern_syntax.specs.Tree.{try_do};
ghost use Rattle.kern_syntax.specs.TreeOf.{block_of, handlers_of};
ghost use Rattle.meaning_frames.specs.Frames.{scope_in};
ghost use Rattle.slack_state.specs.Does.{Does};
ghost use Rattle.meaning_steps.specs.RunnableStatements.{AreRunnableHandlers, IsRunnableBlock};
ghost use Rattle.slack_meaning.specs.Statements.{block, handler, parallel_block, recorded, statement};
ghost use Rattle.slack_runs.specs.Frames.{calls_in};

use crate::blocks::{run_block, run_statement};
use kern_syntax::{Block, Handler};
use meaning_frames::Frame;
use meaning_steps::handler_of;
use rtio_types::{Exc, Name};
use slack_state::{Early, Reason, State, greatest};
use slack_steps::end_recording;
use std::alloc::Global;

/// The statements of a parallel block: each starts at the cursor at hand, and at last the cursor is the greatest at each end.
#[cycle(runs)]
pub fn run_parallel(
    alloc: Global,
    frame: &Frame<'_>,
    state: &mut State,
    body: &Block,
) -> Result<(), Early>
    requires { IsRunnableBlock (block_of body.now) }
    ensures { Does result state.new (parallel_block (scope_in frame.now) (calls_in frame.now) (block_of body.now) state.old.cursor state.old.cursor state.old) }
{
    let start = state.cursor();
    let mut latest = start;
    for statement in body.statements.iter() {
        state.set_cursor(start);
        run_statement(alloc, frame, state, &statement.kind)?;
        latest = state.within_reach(greatest(latest, state.cursor()))?;
    }
    state.set_cursor(latest);
    Ok(())
}

/// A record block.
#[cycle(runs)]
pub fn run_recorded(
    alloc: Global,
    frame: &Frame<'_>,
    state: &mut State,
    body: &Block,
    name: Name,
) -> Result<(), Early>
    requires { IsRunnableBlock (block_of body.now) }
    ensures { Does result state.new (recorded name (block (scope_in frame.now) (calls_in frame.now) (block_of body.now)) state.old) }
{
    let before = state.open_recording(alloc);
    let ran = run_block(alloc, frame, state, body);
    end_recording(alloc, state, name, before, ran)
}

/// A `try`: an exception of its body goes to its handlers.
#[cycle(runs)]
pub fn run_try(
    alloc: Global,
    frame: &Frame<'_>,
    state: &mut State,
    body: &Block,
    handlers: &[Handler],
) -> Result<(), Early>
    requires body { IsRunnableBlock (block_of body.now) }
    requires handlers { AreRunnableHandlers (handlers_of handlers.now) }
    ensures { Does result state.new (statement (scope_in frame.now) (calls_in frame.now) (try_do (block_of body.now) (handlers_of handlers.now)) state.old) }
{
    match run_block(alloc, frame, state, body) {
        Err(Early::Ended(Reason::Raised(exception))) => {
            handle(alloc, frame, state, handlers, exception)
        }
        ran => ran,
    }
}

// The first branch of a `try` with the exception's name, or else the exception goes further.
#[cycle(runs)]
fn handle(
    alloc: Global,
    frame: &Frame<'_>,
    state: &mut State,
    handlers: &[Handler],
    exception: Exc,
) -> Result<(), Early>
    requires { AreRunnableHandlers (handlers_of handlers.now) }
    ensures { Does result state.new (handler (scope_in frame.now) (calls_in frame.now) (handlers_of handlers.now) exception state.old) }
{
    match handler_of(handlers, exception) {
        Some(body) => run_block(alloc, frame, state, body),
        None => Err(Early::Ended(Reason::Raised(exception))),
    }
}
