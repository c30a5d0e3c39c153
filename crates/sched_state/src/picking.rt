// Which job is due.

ghost use Rattle.std.specs.Prelude.{◌≡◌, ◌<◌, ◌&&◌, ◌==◌, ℕ, List, Option, Some, None, find, length, IsTrue, IsSome, IfSome, true};
ghost use Rattle.std.specs.List.{list_any, range_with_len, AllByRecursion};
ghost use Rattle.exp_runs.specs.declared.run.Run.{Run};
ghost use Rattle.exp_runs.specs.Keys.{is_of, is_higher, run_of};
ghost use Rattle.exp_runs.specs.Statuses.{is_preparing, is_prepared, is_running, is_analyzing, is_started};
ghost use Rattle.exp_model.specs.declared.arrival.Arrival.{Arrival};
ghost use Rattle.exp_model.specs.declared.session.Session.{Session};
ghost use Rattle.sched_state.specs.declared.entry.Flight.{Flight};
ghost use Rattle.sched_state.specs.State.{is_step_in, passes, top_of};
ghost use Rattle.sched_state.specs.Picks.{by_top, stepping, preparing, analyzing, first_with, holds_back, is_held, pick, pos_of};
ghost use Rattle.dataset_db.specs.Datasets.{Dataset};
ghost use Rattle.sched_state.specs.Boards.{state_with};

use crate::board::Board;
use crate::entry::{Flight, JobName};
use exp_runs::{Run, Runs, Status};

// Whether the run with this number is of the pipeline.
fn is_in(runs: &Runs, pipeline: u32, rid: u64) -> bool
    ensures value { result ≡ passes (is_of pipeline) runs.now.runs rid }
    ensures known { result ≡ true → IsSome (run_of runs.now.runs rid) }
{
    match runs.get(rid) {
        Some(run) => run.pipeline == pipeline,
        None => false,
    }
}

fn is_step_here(runs: &Runs, pipeline: u32, job: JobName) -> bool
    ensures { result ≡ is_step_in runs.now.runs pipeline job }
{
    match job {
        JobName::Step { rid, .. } => is_in(runs, pipeline, rid),
        _ => false,
    }
}

// Whether a step of a run of the pipeline is in flight.
fn is_any_stepping(runs: &Runs, flying: &[Flight], pipeline: u32) -> bool
    ensures { result ≡ list_any (λ (flight : Flight). is_step_in runs.now.runs pipeline flight.job) flying.now }
{
    flying
        .iter()
        .any(|flight| is_step_here(runs, pipeline, flight.job))
}

// The top of the pipeline's stack.
fn top(runs: &Runs, stack: &[u64], pipeline: u32) -> Option<u64>
    ensures value { result ≡ top_of runs.now.runs stack.now pipeline }
    ensures known { IfSome result (λ rid. IsSome (run_of runs.now.runs rid)) }
{
    for rid in stack {
        if is_in(runs, pipeline, *rid) {
            return Some(*rid);
        }
    }
    None
}

fn is_higher_prepared(clock: u64, run: &Run, other: &Run) -> bool
    ensures { result ≡ (is_prepared other.now.status && is_higher clock run.now other.now) }
{
    matches!(other.status, Status::Prepared)
        && other.pipeline == run.pipeline
        && run.priority < other.priority
}

fn has_higher_prepared(runs: &[Run], run: &Run, clock: u64) -> bool
    ensures { result ≡ list_any (λ (other : Run). is_prepared other.status && is_higher clock run.now other) runs.now }
{
    runs.iter()
        .any(|other| is_higher_prepared(clock, run, other))
}

// What the top of the pipeline's stack decides.
fn top_decides(runs: &Runs, clock: u64, pipeline: u32, top: u64) -> Option<u64>
    requires pipeline { pipeline < runs.now.pipelines }
    requires known { IsSome (run_of runs.now.runs top) }
    ensures { result ≡ by_top runs.now.runs clock pipeline (Some top) }
{
    let Some(run) = runs.get(top) else {
        return Some(top);
    };
    if matches!(run.status, Status::Running) {
        return Some(top);
    }
    if has_higher_prepared(runs.items(), run, clock) {
        return runs.best_prepared(pipeline);
    }
    if runs.higher_due(top, clock) {
        None
    } else {
        Some(top)
    }
}

/// The run whose step is due in this pipeline.
pub fn step_due(board: &Board, pipeline: u32) -> Option<u64>
    requires { pipeline < board.now.runs.pipelines }
    ensures { (left : List Arrival) (datasets : List Dataset) → result ≡ stepping (state_with left datasets board.now) pipeline }
{
    if is_any_stepping(&board.runs, &board.flying, pipeline) {
        return None;
    }
    match top(&board.runs, &board.stack, pipeline) {
        Some(top) => top_decides(&board.runs, board.clock, pipeline, top),
        None => board.runs.best_prepared(pipeline),
    }
}

fn is_any_preparing(runs: &[Run], pipeline: u32) -> bool
    ensures { result ≡ list_any (λ (run : Run). is_of pipeline run && is_preparing run.status) runs.now }
{
    runs.iter().any(|run| run.pipeline == pipeline && matches!(run.status, Status::Preparing))
}

fn is_any_analyzing(runs: &[Run], pipeline: u32) -> bool
    ensures { result ≡ list_any (λ (run : Run). is_of pipeline run && is_analyzing run.status) runs.now }
{
    runs.iter().any(|run| run.pipeline == pipeline && matches!(run.status, Status::Analyzing))
}

fn is_taken_up(status: Status) -> bool
    ensures { result ≡ is_started status }
{
    match status {
        Status::Preparing
        | Status::Prepared
        | Status::Running
        | Status::Paused
        | Status::RunDone
        | Status::Analyzing => true,
        _ => false,
    }
}

fn is_before(run: &Run, other: &Run) -> bool
    ensures { result ≡ holds_back run.now other.now }
{
    other.pipeline == run.pipeline
        && other.rid != run.rid
        && is_taken_up(other.status)
        && other.priority >= run.priority
}

// Whether the run has the flush flag, and others hold it back.
fn waits(runs: &Runs, rid: u64) -> bool
    ensures { result ≡ is_held runs.now.runs rid }
{
    match runs.get(rid) {
        Some(run) => run.flush && is_held_back(runs.items(), run),
        None => false,
    }
}

fn is_held_back(runs: &[Run], run: &Run) -> bool
    ensures { result ≡ list_any (holds_back run.now) runs.now }
{
    runs.iter().any(|other| is_before(run, other))
}

/// The run that is to be prepared in this pipeline.
pub fn preparation_due(board: &Board, pipeline: u32) -> Option<u64>
    requires { pipeline < board.now.runs.pipelines }
    ensures { (left : List Arrival) (datasets : List Dataset) → result ≡ preparing (state_with left datasets board.now) pipeline }
{
    if is_any_preparing(board.runs.items(), pipeline) {
        return None;
    }
    match board.runs.best_pending(pipeline, board.clock) {
        Some(rid) => {
            if waits(&board.runs, rid) {
                None
            } else {
                Some(rid)
            }
        }
        None => None,
    }
}

/// The run that is to be analyzed in this pipeline.
pub fn analysis_due(board: &Board, pipeline: u32) -> Option<u64>
    requires { pipeline < board.now.runs.pipelines }
    ensures { (left : List Arrival) (datasets : List Dataset) → result ≡ analyzing (state_with left datasets board.now) pipeline }
{
    if is_any_analyzing(board.runs.items(), pipeline) {
        return None;
    }
    board.runs.best_done(pipeline)
}

fn first_step(board: &Board, pipelines: u32) -> Option<u64>
    requires { pipelines ≡ board.now.runs.pipelines }
    ensures { (left : List Arrival) (datasets : List Dataset) → result ≡ first_with (stepping (state_with left datasets board.now)) (range_with_len 0 pipelines) }
{
    for pipeline in 0..pipelines {
        if let Some(rid) = step_due(board, pipeline) {
            return Some(rid);
        }
    }
    None
}

fn first_preparation(board: &Board, pipelines: u32) -> Option<u64>
    requires { pipelines ≡ board.now.runs.pipelines }
    ensures { (left : List Arrival) (datasets : List Dataset) → result ≡ first_with (preparing (state_with left datasets board.now)) (range_with_len 0 pipelines) }
{
    for pipeline in 0..pipelines {
        if let Some(rid) = preparation_due(board, pipeline) {
            return Some(rid);
        }
    }
    None
}

fn first_analysis(board: &Board, pipelines: u32) -> Option<u64>
    requires { pipelines ≡ board.now.runs.pipelines }
    ensures { (left : List Arrival) (datasets : List Dataset) → result ≡ first_with (analyzing (state_with left datasets board.now)) (range_with_len 0 pipelines) }
{
    for pipeline in 0..pipelines {
        if let Some(rid) = analysis_due(board, pipeline) {
            return Some(rid);
        }
    }
    None
}

fn position_of(runs: &Runs, rid: u64) -> u32
    ensures { result ≡ pos_of runs.now.runs rid }
{
    match runs.get(rid) {
        Some(run) => run.pos,
        None => 0,
    }
}

/// The job that is due.
pub fn job_due(board: &Board, pipelines: u32) -> Option<JobName>
    requires { pipelines ≡ board.now.runs.pipelines }
    ensures { (session : Session) → (left : List Arrival) (datasets : List Dataset) → length session.pipelines ≡ pipelines → result ≡ pick session (state_with left datasets board.now) }
{
    if let Some(rid) = first_step(board, pipelines) {
        let pos = position_of(&board.runs, rid);
        return Some(JobName::Step { rid, pos });
    }
    if let Some(rid) = first_preparation(board, pipelines) {
        return Some(JobName::Prepare { rid });
    }
    match first_analysis(board, pipelines) {
        Some(rid) => Some(JobName::Analyze { rid }),
        None => None,
    }
}
