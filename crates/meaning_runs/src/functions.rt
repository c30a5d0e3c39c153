// Calls, and the functions of a program.

ghost use Rattle.std.specs.Prelude.{Contains};
ghost use Rattle.kern_calls.specs.Calls.{builtin_named};
ghost use Rattle.kern_names.specs.ScopeOf.{program_of};
ghost use Rattle.kern_syntax.specs.TreeOf.{arguments_of, block_of, function_of};
ghost use Rattle.meaning_frames.specs.Frames.{scope_in};
ghost use Rattle.meaning_runs.specs.Frames.{calls_in};
ghost use Rattle.meaning_state.specs.Does.{Does};
ghost use Rattle.meaning_steps.specs.Runnable.{CallIsTold};
ghost use Rattle.meaning_steps.specs.RunnableStatements.{AreRunnableFunctions, IsRunnableBlock};
ghost use Rattle.timeline_sem.specs.Expressions.{perform_call};
ghost use Rattle.timeline_sem.specs.Programs.{function_body, function_call};

use crate::blocks::run_block;
use kern_calls::builtin_named;
use kern_names::{Functions, Scope, names_of};
use kern_syntax::{Argument, Function};
use meaning_frames::Frame;
use meaning_state::{Early, State};
use meaning_steps::{enter_call, finished, initial_values, perform_builtin};
use std::alloc::Global;

/// A call by name, with its numbers: of the language's own function, or else of one of the program.
#[cycle(runs)]
pub fn perform_call(
    alloc: Global,
    frame: &Frame<'_>,
    state: &mut State<'_>,
    name: &[u8],
    arguments: &[Argument],
    numbers: &[i64],
) -> Result<i64, Early>
    requires { CallIsTold (builtin_named name.now) (arguments_of arguments.now) }
    ensures { Does result state.new (perform_call (scope_in frame.now) (calls_in frame.now) name.now (builtin_named name.now) (arguments_of arguments.now) numbers.now state.old) }
{
    match builtin_named(name) {
        Some(builtin) => perform_builtin(alloc, &frame.scope, state, builtin, arguments, numbers),
        None => run_named(alloc, frame, state, name, numbers),
    }
}

// A call of the function of a name, if there is one.
#[cycle(runs)]
fn run_named(
    alloc: Global,
    frame: &Frame<'_>,
    state: &mut State<'_>,
    name: &[u8],
    numbers: &[i64],
) -> Result<i64, Early>
    ensures { Does result state.new (calls_in frame.now name.now numbers.now state.old) }
{
    let room = enter_call(state, frame.room)?;
    let functions = &frame.scope.functions;
    match functions.named(name) {
        Some(function) => run_function(alloc, functions, room, state, function, numbers),
        None => Ok(0),
    }
}

/// The body of a function of the program, with names of its own, where so many functions more may become active.
#[cycle(runs)]
pub fn run_function(
    alloc: Global,
    functions: &Functions<'_>,
    room: u32,
    state: &mut State<'_>,
    function: &Function,
    numbers: &[i64],
) -> Result<i64, Early>
    requires functions { AreRunnableFunctions (program_of functions.now) }
    requires body { IsRunnableBlock (block_of function.now.body) }
    requires own { Contains (program_of functions.now) (function_of function.now) }
    ensures { Does result state.new (function_body (program_of functions.now) (function_call (program_of functions.now) room) (function_of function.now) numbers.now state.old) }
{
    let names = names_of(alloc, functions, function)?;
    let values = initial_values(alloc, &names, numbers)?;
    let before = state.exchange(values);
    let frame = Frame {
        scope: Scope {
            functions: *functions,
            names: &names,
        },
        room,
    };
    let ran = run_block(alloc, &frame, state, &function.body);
    state.exchange(before);
    finished(ran)
}
