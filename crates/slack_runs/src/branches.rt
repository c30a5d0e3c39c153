// The branches of an `if`.

ghost use Rattle.std.specs.Prelude.{option_map};
ghost use Rattle.kern_syntax.specs.Tree.{Otherwise, if_then, no_else};
ghost use Rattle.kern_syntax.specs.TreeOf.{block_of, branches_of, elif_of, else_of, expression_of};
ghost use Rattle.meaning_frames.specs.Frames.{scope_in};
ghost use Rattle.slack_state.specs.Does.{Does};
ghost use Rattle.meaning_steps.specs.Runnable.{IsRunnable};
ghost use Rattle.meaning_steps.specs.RunnableStatements.{IsRunnableBlock, IsRunnableOtherwise};
ghost use Rattle.slack_meaning.specs.Statements.{block, either, otherwise, statement};
ghost use Rattle.slack_runs.specs.Frames.{calls_in};
ghost use Rattle.slack_steps.specs.Turns.{GoesOn};

use crate::blocks::run_block;
use crate::expressions::{evaluate, evaluate_parts};
use kern_syntax::{Block, Elif, Expr};
use meaning_frames::Frame;
use meaning_steps::is_true;
use slack_state::{Early, State};
use slack_steps::known_number;
use std::alloc::Global;

/// An `if`, by whether its condition is known.
#[cycle(runs)]
pub fn run_if(
    alloc: Global,
    frame: &Frame<'_>,
    state: &mut State,
    condition: &Expr,
    body: &Block,
    branches: &[Elif],
    last: &Option<Block>,
) -> Result<(), Early>
    requires condition { IsRunnable (expression_of condition.now) }
    requires body { IsRunnableBlock (block_of body.now) }
    requires rest { IsRunnableOtherwise (branches_of branches.now last.now) }
    ensures { Does result state.new (statement (scope_in frame.now) (calls_in frame.now) (if_then (expression_of condition.now) (block_of body.now) (branches_of branches.now last.now)) state.old) }
{
    match known_number(&frame.scope, state, condition) {
        Some(number) => { run_either(alloc, frame, state, is_true(number), body, branches, last) }
        None => decide(alloc, frame, state, condition, body, branches, last),
    }
}

// The same, by the value of its condition.
#[cycle(runs)]
fn decide(
    alloc: Global,
    frame: &Frame<'_>,
    state: &mut State,
    condition: &Expr,
    body: &Block,
    branches: &[Elif],
    last: &Option<Block>,
) -> Result<(), Early>
    requires condition { IsRunnable (expression_of condition.now) }
    requires body { IsRunnableBlock (block_of body.now) }
    requires rest { IsRunnableOtherwise (branches_of branches.now last.now) }
    ensures { Does result state.new (statement (scope_in frame.now) (calls_in frame.now) (if_then (expression_of condition.now) (block_of body.now) (branches_of branches.now last.now)) state.old) }
{
    let holds = evaluate_parts(alloc, frame, state, condition)?;
    let number = state.number(holds)?;
    run_either(alloc, frame, state, is_true(number), body, branches, last)
}

// The first branch of an `if` where its condition holds, and else the others.
#[cycle(runs)]
fn run_either(
    alloc: Global,
    frame: &Frame<'_>,
    state: &mut State,
    holds: bool,
    body: &Block,
    branches: &[Elif],
    last: &Option<Block>,
) -> Result<(), Early>
    requires body { IsRunnableBlock (block_of body.now) }
    requires rest { IsRunnableOtherwise (branches_of branches.now last.now) }
    ensures { Does result state.new (either holds (block (scope_in frame.now) (calls_in frame.now) (block_of body.now)) (otherwise (scope_in frame.now) (calls_in frame.now) (branches_of branches.now last.now)) state.old) }
{
    if holds {
        run_block(alloc, frame, state, body)
    } else {
        run_branches(alloc, frame, state, branches, last)
    }
}

// The further branches of an `if`.
#[cycle(runs)]
fn run_branches(
    alloc: Global,
    frame: &Frame<'_>,
    state: &mut State,
    branches: &[Elif],
    last: &Option<Block>,
) -> Result<(), Early>
    requires { IsRunnableOtherwise (branches_of branches.now last.now) }
    ensures { Does result state.new (otherwise (scope_in frame.now) (calls_in frame.now) (branches_of branches.now last.now) state.old) }
{
    for branch in branches.iter() {
        if !run_branch(alloc, frame, state, branch)? {
            return Ok(());
        }
    }
    run_else(alloc, frame, state, last)
}

// A further branch of an `if`. Whether it didn't run.
#[cycle(runs)]
fn run_branch(
    alloc: Global,
    frame: &Frame<'_>,
    state: &mut State,
    branch: &Elif,
) -> Result<bool, Early>
    requires { IsRunnableOtherwise (elif_of branch.now no_else) }
    ensures { (rest : Otherwise) →
        GoesOn result state.new
        (otherwise (scope_in frame.now) (calls_in frame.now) (elif_of branch.now rest) state.old)
        (otherwise (scope_in frame.now) (calls_in frame.now) rest) }
{
    let holds = evaluate(alloc, frame, state, &branch.condition)?;
    if !is_true(state.number(holds)?) {
        return Ok(true);
    }
    run_block(alloc, frame, state, &branch.body)?;
    Ok(false)
}

// The `else` of an `if`, if it has one.
#[cycle(runs)]
fn run_else(
    alloc: Global,
    frame: &Frame<'_>,
    state: &mut State,
    last: &Option<Block>,
) -> Result<(), Early>
    requires { IsRunnableOtherwise (else_of (option_map block_of last.now)) }
    ensures { Does result state.new (otherwise (scope_in frame.now) (calls_in frame.now) (else_of (option_map block_of last.now)) state.old) }
{
    match last {
        Some(body) => run_block(alloc, frame, state, body),
        None => Ok(()),
    }
}
