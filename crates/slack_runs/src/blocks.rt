// Statements and blocks.

ghost use Rattle.kern_syntax.specs.TreeOf.{block_of, lines_of, statement_of};
ghost use Rattle.meaning_frames.specs.Frames.{scope_in};
ghost use Rattle.slack_state.specs.Does.{Does};
ghost use Rattle.meaning_steps.specs.RunnableStatements.{IsRunnableBlock, IsRunnableStatement};
ghost use Rattle.slack_meaning.specs.Statements.{block, statement};
ghost use Rattle.slack_runs.specs.Frames.{calls_in};

use crate::branches::run_if;
use crate::loops::{run_for_from_to, run_for_to, run_while};
use crate::simple::{assign, assign_list, assign_repeated, augment, evaluate_alone, give_back};
use crate::timed::{run_parallel, run_recorded, run_try};
use kern_syntax::{Block, Stmt, StmtKind};
use meaning_frames::Frame;
use slack_state::{Early, Reason, State};
use slack_steps::{behind, lines, run_front, run_known};
use std::alloc::Global;

/// The statements of a block, one after another. Those in front whose values are known run without calls of their own.
#[cycle(runs)]
pub fn run_block(
    alloc: Global,
    frame: &Frame<'_>,
    state: &mut State,
    body: &Block,
) -> Result<(), Early>
    requires { IsRunnableBlock (block_of body.now) }
    ensures { Does result state.new (block (scope_in frame.now) (calls_in frame.now) (block_of body.now) state.old) }
{
    let statements = lines(body);
    let ran = run_front(&frame.scope, state, statements);
    run_lines(alloc, frame, state, behind(statements, ran))
}

// Statements, one after another.
#[cycle(runs)]
fn run_lines(
    alloc: Global,
    frame: &Frame<'_>,
    state: &mut State,
    statements: &[Stmt],
) -> Result<(), Early>
    requires { IsRunnableBlock (lines_of statements.now) }
    ensures { Does result state.new (block (scope_in frame.now) (calls_in frame.now) (lines_of statements.now) state.old) }
{
    for statement in statements.iter() {
        run_statement(alloc, frame, state, &statement.kind)?;
    }
    Ok(())
}

/// A statement.
#[cycle(runs)]
pub fn run_statement(
    alloc: Global,
    frame: &Frame<'_>,
    state: &mut State,
    form: &StmtKind,
) -> Result<(), Early>
    requires { IsRunnableStatement (statement_of form.now) }
    ensures { Does result state.new (statement (scope_in frame.now) (calls_in frame.now) (statement_of form.now) state.old) }
{
    if run_known(&frame.scope, state, form) {
        return Ok(());
    }
    run_parts(alloc, frame, state, form)
}

// A statement, part by part. Each arm is a call whose end is this one's, so that nothing is kept here for what parts may end with.
#[cycle(runs)]
fn run_parts(
    alloc: Global,
    frame: &Frame<'_>,
    state: &mut State,
    form: &StmtKind,
) -> Result<(), Early>
    requires { IsRunnableStatement (statement_of form.now) }
    ensures { Does result state.new (statement (scope_in frame.now) (calls_in frame.now) (statement_of form.now) state.old) }
{
    match form {
        StmtKind::Pass => Ok(()),
        StmtKind::Break => Err(Early::Ended(Reason::Break)),
        StmtKind::Continue => Err(Early::Ended(Reason::Continue)),
        StmtKind::Return(value) => give_back(alloc, frame, state, value),
        StmtKind::Evaluate(e) => evaluate_alone(alloc, frame, state, e),
        StmtKind::Assign(target, e) => assign(alloc, frame, state, target, e),
        StmtKind::Augmented(target, operator, e) => {
            augment(alloc, frame, state, target, *operator, e)
        }
        StmtKind::ArrayRepeat(x, e, length) => {
            assign_repeated(alloc, frame, state, x.bytes(), e, *length)
        }
        StmtKind::ArrayList(x, elements) => {
            assign_list(alloc, frame, state, x.bytes(), elements)
        }
        StmtKind::If(condition, body, branches, last) => {
            run_if(alloc, frame, state, condition, body, branches, last)
        }
        StmtKind::While(condition, body) => { run_while(alloc, frame, state, body, condition) }
        StmtKind::ForTo(x, to, body) => run_for_to(alloc, frame, state, body, x.bytes(), to),
        StmtKind::ForFromTo(x, from, to, body) => {
            run_for_from_to(alloc, frame, state, body, x.bytes(), from, to)
        }
        StmtKind::Parallel(body) => run_parallel(alloc, frame, state, body),
        StmtKind::Sequential(body) => run_block(alloc, frame, state, body),
        StmtKind::Record(name, body) => run_recorded(alloc, frame, state, body, *name),
        StmtKind::Try(body, handlers) => run_try(alloc, frame, state, body, handlers),
    }
}
