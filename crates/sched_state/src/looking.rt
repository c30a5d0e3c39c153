// What there is to do.

ghost use Rattle.std.specs.Prelude.{◌≡◌, ◌≤◌, ◌&&◌, ◌==◌, ℕ, List, length, map, filter, fold, option_map, slice_get, None, Some, nat_lt};
ghost use Rattle.std.specs.List.{list_all};
ghost use Rattle.exp_runs.specs.declared.run.Run.{Run};
ghost use Rattle.exp_runs.specs.Statuses.{is_ended, is_pending};
ghost use Rattle.exp_model.specs.declared.arrival.Arrival.{Arrival};
ghost use Rattle.exp_model.specs.declared.session.Session.{Session};
ghost use Rattle.sched_state.specs.Picks.{earlier, earliest, is_over, next_date, waits_longer};
ghost use Rattle.dataset_db.specs.Datasets.{Dataset};
ghost use Rattle.sched_state.specs.Boards.{state_of};
ghost use Rattle.sched_state.specs.Looks.{LooksAs};

use crate::arriving::has_ended;
use crate::board::Board;
use crate::entry::JobName;
use crate::picking::job_due;
use exp_model::Arrival;
use exp_runs::{Run, Status};

/// What there is to do.
#[derive(Clone, Copy)]
pub enum Look {
    /// Nothing any more.
    Over,
    /// This job.
    Due(JobName),
    /// Nothing before a job in flight is reported.
    Wait,
    /// Nothing before this moment.
    Jump(u64),
    /// Nothing, and nothing will come: no lawful history leads here.
    Stuck,
}

fn have_ended(runs: &[Run]) -> bool
    ensures { result ≡ list_all (λ (run : Run). is_ended run.status) runs.now }
{
    runs.iter().all(|run| has_ended(run.status))
}

fn is_all_over(board: &Board, arrivals: &[Arrival]) -> bool
    requires { board.now.taken ≤ length arrivals.now }
    ensures { (datasets : List Dataset) → result ≡ is_over (state_of arrivals.now datasets board.now) }
{
    board.taken == arrivals.len() && have_ended(board.runs.items())
}

fn the_earlier(a: Option<u64>, b: Option<u64>) -> Option<u64>
    ensures { result ≡ earlier a b }
{
    match (a, b) {
        (None, other) => other,
        (Some(x), None) => Some(x),
        (Some(x), Some(y)) => Some(x.min(y)),
    }
}

fn is_waiting_longer(run: &Run, clock: u64) -> bool
    ensures { result ≡ waits_longer clock run.now }
{
    matches!(run.status, Status::Pending) && clock < run.due
}

fn next_due(runs: &[Run], clock: u64) -> Option<u64>
    ensures { result ≡ earliest (map (λ (run : Run). run.due) (filter (waits_longer clock) runs.now)) }
{
    let mut least = None;
    for run in runs {
        if is_waiting_longer(run, clock) {
            least = the_earlier(least, Some(run.due));
        }
    }
    least
}

fn next_arrival(arrivals: &[Arrival]) -> Option<u64>
    ensures { result ≡ option_map (λ (arrival : Arrival). arrival.at) (slice_get arrivals.now 0) }
{
    match arrivals.first() {
        Some(arrival) => Some(arrival.at),
        None => None,
    }
}

fn date_after(board: &Board, arrivals: &[Arrival]) -> Option<u64>
    requires { board.now.taken ≤ length arrivals.now }
    ensures { (datasets : List Dataset) → result ≡ next_date (state_of arrivals.now datasets board.now) }
{
    the_earlier(
        next_arrival(&arrivals[board.taken..]),
        next_due(board.runs.items(), board.clock),
    )
}

/// What there is to do now.
pub fn look_at(board: &Board, arrivals: &[Arrival], pipelines: u32) -> Look
    requires taken { board.now.taken ≤ length arrivals.now }
    requires pipelines { pipelines ≡ board.now.runs.pipelines }
    ensures { (session : Session) (datasets : List Dataset) → length session.pipelines ≡ pipelines → LooksAs session (state_of arrivals.now datasets board.now) result }
{
    if is_all_over(board, arrivals) {
        return Look::Over;
    }
    if let Some(job) = job_due(board, pipelines) {
        return Look::Due(job);
    }
    if !board.flying.is_empty() {
        return Look::Wait;
    }
    match date_after(board, arrivals) {
        Some(clock) => Look::Jump(clock),
        None => Look::Stuck,
    }
}
