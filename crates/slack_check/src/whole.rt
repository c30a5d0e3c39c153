// The verdict on a checked program.

ghost use Rattle.std.specs.Prelude.{◌≡◌, IfOk};
ghost use Rattle.limits.specs.Limits.{most_cost, most_depth};
ghost use Rattle.slack_meaning.specs.Actions as A;
ghost use Rattle.slack_meaning.specs.Programs.{verdict_of, verdict_where};
ghost use Rattle.slack_meaning.specs.declared.span.Span.{Span as Bounds};
ghost use Rattle.slack_state.specs.Does.{Does};
ghost use Rattle.slack_state.specs.Ends.{reason_of};

use kern_names::{Functions, number_functions};
use kern_syntax::Function;
use kern_types::Checked;
use meaning_frames::function_at;
use slack_law::a_yes_means_no_underflow;
use slack_meaning::{Span, Stopped, Verdict};
use slack_runs::run_function;
use slack_state::{Early, Reason, State, exactly};
use std::alloc::{AllocError, Global};

// At most 64 functions are active, the first one being one of them.
const CALL_ROOM: u32 = 63;

// The verdict where a run stopped.
fn verdict_where(stopped: Stopped) -> Verdict
    ensures { result ≡ verdict_where stopped }
{
    match stopped {
        Stopped::TooLate {
            number,
            event,
            limit,
        } => Verdict::No {
            number,
            event,
            limit,
        },
        Stopped::Unknown { requests, why } => Verdict::Open { requests, why },
    }
}

// The verdict where a run ended early, and so many outputs were asked for: the one that stopped it, and else yes.
fn verdict_at(reason: Reason, outs: u64) -> Verdict
    ensures { (s : A.State) (m : A.Completion Bounds) → outs ≡ s.outs → m ≡ A.early (reason_of reason) s → verdict_of m ≡ result }
{
    match reason {
        Reason::Decided(stopped) => verdict_where(stopped),
        _ => Verdict::Yes { outs },
    }
}

// The verdict at a run's end, where so many outputs were asked for. The only error is want of memory.
fn verdict_of(ran: Result<Span, Early>, outs: u64) -> Result<Verdict, AllocError>
    ensures { (s : A.State) (m : A.Completion Bounds) → outs ≡ s.outs → Does ran s m →
        IfOk result (λ verdict. verdict_of m ≡ verdict) }
{
    match ran {
        Ok(_) => Ok(Verdict::Yes { outs }),
        Err(Early::Ended(reason)) => Ok(verdict_at(reason, outs)),
        Err(Early::Memory) => Err(AllocError),
    }
}

ghost use Rattle.std.specs.Prelude.{[], option_map, Contains, IfSome};
ghost use Rattle.kern_names.specs.ScopeOf.{program_of};
ghost use Rattle.kern_syntax.specs.TreeOf.{block_of, function_of, tree_of};
ghost use Rattle.meaning_steps.specs.RunnableStatements.{AreRunnableFunctions, IsRunnableBlock};
ghost use Rattle.timeline_sem.specs.Programs.{call_room};
ghost use Rattle.slack_meaning.specs.Programs.{function_call, optional_body};

// The function, if there is one, without arguments.
fn run_first(
    alloc: Global,
    functions: &Functions<'_>,
    state: &mut State,
    first: Option<&Function>,
) -> Result<Span, Early>
    requires functions { AreRunnableFunctions (program_of functions.now) }
    requires body { IfSome first (λ f. IsRunnableBlock (block_of f.now.body)) }
    requires own { IfSome first (λ f. Contains (program_of functions.now) (function_of f.now)) }
    ensures { Does result state.new (optional_body (program_of functions.now) (function_call (program_of functions.now) call_room) (option_map (λ f. function_of f.now) first.entry) [] state.old) }
{
    match first {
        Some(function) => run_function(alloc, functions, CALL_ROOM, state, function, &[]),
        None => Ok(exactly(0)),
    }
}

ghost use Rattle.std.specs.Prelude.{ℕ, ◌≤◌};
ghost use Rattle.slack_meaning.specs.declared.verdict.Verdict.TheVariants.{Yes};
ghost use Rattle.slack_check.specs.Mains.{MainNeverUnderflows, verdict_of_main};

/// Whether an output of a checked program's `main` can come too late, at a request cost in machine units (mu) of at most
/// 1,000,000 and for lanes that take `depth` events at least, 1 to 1024. It answers without running a core, by the rules of
/// `docs/SLACK.md`, which are this project's own. A yes holds of every core: however lawful cores of that cost and at least that
/// depth answer, no output of the kernel underflows in a first session that begins at cursor 0. The only error is want of
/// memory.
pub fn slack(alloc: Global, checked: &Checked, cost: u64, depth: u32) -> Result<Verdict, AllocError>
    requires cost { cost ≤ most_cost }
    requires depth { (1 ≤ depth) × (depth ≤ most_depth) }
    // The verdict is that of the run without a core.
    ensures verdict { IfOk result (λ verdict. verdict ≡ verdict_of_main (tree_of checked.now) cost depth) }
    // In no lawful history of that cost and at least that depth, whose first session asks a beginning of what `main` means, is
    // an entry of it answered by an underflow.
    ensures yes { IfOk result (λ verdict. (outs : ℕ) → verdict ≡ Yes outs → MainNeverUnderflows (tree_of checked.now) cost depth) }
{
    a_yes_means_no_underflow();
    let functions = checked.program().functions();
    let numbers = number_functions(alloc, functions)?;
    let program = Functions {
        functions,
        numbers: &numbers,
    };
    let mut state = State::opening(alloc, cost, depth);
    let main = checked.function(b"main").unwrap_or(0);
    let first = function_at(functions, main);
    let ran = run_first(alloc, &program, &mut state, first);
    verdict_of(ran, state.outs())
}
