// Statements, and the branches of an `if`.

ghost use Rattle.std.specs.Prelude.{option_map};
ghost use Rattle.kern_syntax.specs.Tree.{Otherwise, no_else};
ghost use Rattle.kern_syntax.specs.TreeOf.{block_of, elif_of, else_of, statement_of};
ghost use Rattle.meaning_frames.specs.Frames.{scope_in};
ghost use Rattle.meaning_runs.specs.Frames.{calls_in};
ghost use Rattle.meaning_state.specs.Does.{Does};
ghost use Rattle.meaning_steps.specs.RunnableStatements.{IsRunnableBlock, IsRunnableOtherwise, IsRunnableStatement};
ghost use Rattle.meaning_steps.specs.Turns.{GoesOn};
ghost use Rattle.timeline_sem.specs.Statements.{block, otherwise, statement};

use crate::expressions::evaluate;
use crate::loops::{run_for, run_while};
use crate::simple::{assign, assign_list, assign_repeated, augment, give_back};
use crate::timed::{handle, run_parallel, run_recorded};
use kern_syntax::{Block, Elif, StmtKind};
use meaning_frames::Frame;
use meaning_state::{Early, Reason, State};
use meaning_steps::is_true;
use std::alloc::Global;

/// The statements of a block, one after another.
#[cycle(runs)]
pub fn run_block(
    alloc: Global,
    frame: &Frame<'_>,
    state: &mut State<'_>,
    body: &Block,
) -> Result<(), Early>
    requires { IsRunnableBlock (block_of body.now) }
    ensures { Does result state.new (block (scope_in frame.now) (calls_in frame.now) (block_of body.now) state.old) }
{
    for statement in body.statements.iter() {
        run_statement(alloc, frame, state, &statement.kind)?;
    }
    Ok(())
}

/// A statement.
#[cycle(runs)]
pub fn run_statement(
    alloc: Global,
    frame: &Frame<'_>,
    state: &mut State<'_>,
    form: &StmtKind,
) -> Result<(), Early>
    requires { IsRunnableStatement (statement_of form.now) }
    ensures { Does result state.new (statement (scope_in frame.now) (calls_in frame.now) (statement_of form.now) state.old) }
{
    match form {
        StmtKind::Pass => Ok(()),
        StmtKind::Break => Err(Early::Ended(Reason::Break)),
        StmtKind::Continue => Err(Early::Ended(Reason::Continue)),
        StmtKind::Return(value) => give_back(alloc, frame, state, value),
        StmtKind::Evaluate(e) => {
            evaluate(alloc, frame, state, e)?;
            Ok(())
        }
        StmtKind::Assign(target, e) => assign(alloc, frame, state, target, e),
        StmtKind::Augmented(target, operator, e) => {
            augment(alloc, frame, state, target, *operator, e)
        }
        StmtKind::ArrayRepeat(x, e, length) => {
            assign_repeated(alloc, frame, state, x.bytes(), e, *length)
        }
        StmtKind::ArrayList(x, elements) => {
            assign_list(alloc, frame, state, x.bytes(), elements)
        }
        StmtKind::If(condition, body, branches, last) => {
            if is_true(evaluate(alloc, frame, state, condition)?) {
                return run_block(alloc, frame, state, body);
            }
            for branch in branches.iter() {
                if !run_branch(alloc, frame, state, branch)? {
                    return Ok(());
                }
            }
            run_else(alloc, frame, state, last)
        }
        StmtKind::While(condition, body) => { run_while(alloc, frame, state, body, condition) }
        StmtKind::ForTo(x, to, body) => {
            let end = evaluate(alloc, frame, state, to)?;
            run_for(alloc, frame, state, body, x.bytes(), 0, end)
        }
        StmtKind::ForFromTo(x, from, to, body) => {
            let start = evaluate(alloc, frame, state, from)?;
            let end = evaluate(alloc, frame, state, to)?;
            run_for(alloc, frame, state, body, x.bytes(), start, end)
        }
        StmtKind::Parallel(body) => run_parallel(alloc, frame, state, body),
        StmtKind::Sequential(body) => run_block(alloc, frame, state, body),
        StmtKind::Record(name, body) => run_recorded(alloc, frame, state, body, *name),
        StmtKind::Try(body, handlers) => {
            match run_block(alloc, frame, state, body) {
                Err(Early::Ended(Reason::Raised(exception))) => {
                    handle(alloc, frame, state, handlers, exception)
                }
                ran => ran,
            }
        }
    }
}

// A further branch of an `if`. Whether it didn't run.
#[cycle(runs)]
fn run_branch(
    alloc: Global,
    frame: &Frame<'_>,
    state: &mut State<'_>,
    branch: &Elif,
) -> Result<bool, Early>
    requires { IsRunnableOtherwise (elif_of branch.now no_else) }
    ensures { (rest : Otherwise) →
        GoesOn result state.new
        (otherwise (scope_in frame.now) (calls_in frame.now) (elif_of branch.now rest) state.old)
        (otherwise (scope_in frame.now) (calls_in frame.now) rest) }
{
    if !is_true(evaluate(alloc, frame, state, &branch.condition)?) {
        return Ok(true);
    }
    run_block(alloc, frame, state, &branch.body)?;
    Ok(false)
}

// The `else` of an `if`, if it has one.
#[cycle(runs)]
fn run_else(
    alloc: Global,
    frame: &Frame<'_>,
    state: &mut State<'_>,
    last: &Option<Block>,
) -> Result<(), Early>
    requires { IsRunnableOtherwise (else_of (option_map block_of last.now)) }
    ensures { Does result state.new (otherwise (scope_in frame.now) (calls_in frame.now) (else_of (option_map block_of last.now)) state.old) }
{
    match last {
        Some(body) => run_block(alloc, frame, state, body),
        None => Ok(()),
    }
}
