// The meaning of a function of a checked program.

ghost use Rattle.std.specs.Prelude.{◌≡◌, ℤ, IfOk};
ghost use Rattle.meaning_state.specs.Does.{Does, reason_of};
ghost use Rattle.timeline_sem.specs.Actions as A;
ghost use Rattle.timeline_sem.specs.Programs.{meaning_of, outcome_of};

use kern_names::{Functions, number_functions};
use kern_syntax::Function;
use kern_types::Checked;
use meaning_frames::function_at;
use meaning_runs::run_function;
use meaning_state::{Early, Reason, State};
use rtio_types::{Reply, Request};
use std::alloc::{AllocError, Global};
use std::marker::Model;
use timeline_sem::MeantOutcome;

// At most 64 functions are active, the first one being one of them.
const CALL_ROOM: u32 = 63;

/// What a function of a kernel means under given replies.
#[derive(Debug, Drop)]
pub struct Meant {
    /// The requests that it makes, in order. Where its outcome is Unanswered, the last one has no reply.
    pub requests: Vec<Request>,
    /// The cursor at its end, in machine units (mu).
    pub cursor: i64,
    /// The units left at its end.
    pub units: u32,
    /// How it ends.
    pub outcome: MeantOutcome,
}

impl Model for Meant {
    ghost use Rattle.timeline_sem.specs.Programs.{Meaning};

    ghost Value = { Meaning };

    ghost view = { λ m. record { requests = m.requests.items; cursor = m.cursor; units = m.units; outcome = m.outcome } };
}

// An early end of a whole function as its outcome.
fn outcome_of(reason: Reason) -> MeantOutcome
    ensures { result ≡ outcome_of (reason_of reason) }
{
    match reason {
        Reason::Raised(exception) => MeantOutcome::Raised(exception),
        Reason::Budget => MeantOutcome::Budget,
        Reason::Unanswered => MeantOutcome::Unanswered,
        _ => MeantOutcome::Returned,
    }
}

// How a whole function ended. The only error is want of memory.
fn ended(ran: Result<i64, Early>) -> Result<MeantOutcome, AllocError>
    ensures { (s : A.State) (m : A.Completion ℤ) → Does ran s m →
        IfOk result (λ outcome. meaning_of m ≡ record { requests = s.asked; cursor = s.cursor; units = s.units; outcome = outcome }) }
{
    match ran {
        Ok(_) => Ok(MeantOutcome::Returned),
        Err(Early::Ended(reason)) => Ok(outcome_of(reason)),
        Err(Early::Memory) => Err(AllocError),
    }
}

ghost use Rattle.std.specs.Prelude.{option_map, Contains, IfSome};
ghost use Rattle.kern_names.specs.ScopeOf.{program_of};
ghost use Rattle.kern_syntax.specs.TreeOf.{block_of, function_of, tree_of};
ghost use Rattle.meaning_steps.specs.RunnableStatements.{AreRunnableFunctions, IsRunnableBlock};
ghost use Rattle.timeline_sem.specs.Programs.{call_room, function_call, meaning, optional_body};

// The function, if there is one.
fn run_first(
    alloc: Global,
    functions: &Functions<'_>,
    state: &mut State<'_>,
    first: Option<&Function>,
    args: &[i64],
) -> Result<i64, Early>
    requires functions { AreRunnableFunctions (program_of functions.now) }
    requires body { IfSome first (λ f. IsRunnableBlock (block_of f.now.body)) }
    requires own { IfSome first (λ f. Contains (program_of functions.now) (function_of f.now)) }
    ensures { Does result state.new (optional_body (program_of functions.now) (function_call (program_of functions.now) call_room) (option_map (λ f. function_of f.now) first.entry) args.now state.old) }
{
    match first {
        Some(function) => run_function(alloc, functions, CALL_ROOM, state, function, args),
        None => Ok(0),
    }
}

/// What a function of a checked program means, given by its place in the text, from 0: what it asks, where its cursor and
/// units end and how, from this cursor in machine units (mu), with these units, and under these replies. Replies that aren't
/// used are ignored; where a request has no reply left the outcome is Unanswered. The rules are those of
/// `docs/LANGUAGE.md`. The only error is want of memory.
pub fn meaning(
    alloc: Global,
    checked: &Checked,
    function: u32,
    args: &[i64],
    cursor: i64,
    units: u32,
    replies: &[Reply],
) -> Result<Meant, AllocError>
    ensures { IfOk result (λ meant. meant ≡ meaning (tree_of checked.now) function args.now cursor units replies.now) }
{
    let functions = checked.program().functions();
    let numbers = number_functions(alloc, functions)?;
    let program = Functions {
        functions,
        numbers: &numbers,
    };
    let mut state = State::opening(alloc, cursor, units, replies);
    let first = function_at(functions, function);
    let outcome = ended(run_first(alloc, &program, &mut state, first, args))?;
    let cursor = state.cursor();
    let units = state.units();
    Ok(Meant {
        requests: state.into_asked(),
        cursor,
        units,
        outcome,
    })
}
