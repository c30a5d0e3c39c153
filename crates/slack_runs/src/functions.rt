// Calls, and the functions of a program.

ghost use Rattle.std.specs.Prelude.{Contains};
ghost use Rattle.kern_calls.specs.Calls.{builtin_named};
ghost use Rattle.kern_names.specs.ScopeOf.{program_of};
ghost use Rattle.kern_syntax.specs.TreeOf.{arguments_of, block_of, function_of};
ghost use Rattle.meaning_frames.specs.Frames.{scope_in};
ghost use Rattle.meaning_steps.specs.Runnable.{CallIsTold};
ghost use Rattle.meaning_steps.specs.RunnableStatements.{AreRunnableFunctions, IsRunnableBlock};
ghost use Rattle.slack_meaning.specs.Expressions.{perform_call};
ghost use Rattle.slack_meaning.specs.Programs.{function_body, function_call};
ghost use Rattle.slack_runs.specs.Frames.{calls_in};
ghost use Rattle.slack_state.specs.Does.{Does};

use crate::blocks::run_block;
use kern_calls::builtin_named;
use kern_names::{Functions, Scope, names_of};
use kern_syntax::{Argument, Function};
use meaning_frames::Frame;
use slack_meaning::Span;
use slack_state::{Early, State, exactly};
use slack_steps::{enter_call, finished, initial_values, perform_builtin};
use std::alloc::Global;

/// A call by name, with its values: of the language's own function, or else of one of the program.
#[cycle(runs)]
pub fn perform_call(
    alloc: Global,
    frame: &Frame<'_>,
    state: &mut State,
    name: &[u8],
    arguments: &[Argument],
    spans: &[Span],
) -> Result<Span, Early>
    requires { CallIsTold (builtin_named name.now) (arguments_of arguments.now) }
    ensures { Does result state.new (perform_call (scope_in frame.now) (calls_in frame.now) name.now (builtin_named name.now) (arguments_of arguments.now) spans.now state.old) }
{
    match builtin_named(name) {
        Some(builtin) => { Ok(perform_builtin(&frame.scope, state, builtin, arguments, spans)?) }
        None => run_named(alloc, frame, state, name, spans),
    }
}

// A call of the function of a name, if there is one.
#[cycle(runs)]
fn run_named(
    alloc: Global,
    frame: &Frame<'_>,
    state: &mut State,
    name: &[u8],
    spans: &[Span],
) -> Result<Span, Early>
    ensures { Does result state.new (calls_in frame.now name.now spans.now state.old) }
{
    let room = enter_call(state, frame.room)?;
    let functions = &frame.scope.functions;
    match functions.named(name) {
        Some(function) => run_function(alloc, functions, room, state, function, spans),
        None => Ok(exactly(0)),
    }
}

/// The body of a function of the program, with names of its own, where so many functions more may become active.
#[cycle(runs)]
pub fn run_function(
    alloc: Global,
    functions: &Functions<'_>,
    room: u32,
    state: &mut State,
    function: &Function,
    spans: &[Span],
) -> Result<Span, Early>
    requires functions { AreRunnableFunctions (program_of functions.now) }
    requires body { IsRunnableBlock (block_of function.now.body) }
    requires own { Contains (program_of functions.now) (function_of function.now) }
    ensures { Does result state.new (function_body (program_of functions.now) (function_call (program_of functions.now) room) (function_of function.now) spans.now state.old) }
{
    let names = names_of(alloc, functions, function)?;
    let values = initial_values(alloc, &names, spans)?;
    let before = state.exchange(values);
    let frame = Frame {
        scope: Scope {
            functions: *functions,
            names: &names,
        },
        room,
    };
    let ran = run_block(alloc, &frame, state, &function.body);
    state.exchange(before);
    finished(ran)
}
