// What calls answer, as a table writes it.

use exp_runs::Status;
use rtio_types::Value;
use sched_core::{Job, Next, StepWord, Why};
use sched_driver::Token;
use std::alloc::{AllocError, Global};

/// A status, in one word.
pub fn status_word(status: Status) -> &'static str {
    match status {
        Status::Pending => "pending",
        Status::Preparing => "preparing",
        Status::Prepared => "prepared",
        Status::Running => "running",
        Status::Paused => "paused",
        Status::RunDone => "rundone",
        Status::Analyzing => "analyzing",
        Status::Done => "done",
        Status::Failed => "failed",
        Status::Terminated => "terminated",
        Status::Deleted => "deleted",
    }
}

/// What became of a step, in one word.
pub fn step_word(word: StepWord) -> &'static str {
    match word {
        StepWord::Ok => "ok",
        StepWord::Failed => "failed",
        StepWord::Raised(_) => "raised",
        StepWord::Budget => "budget",
        StepWord::Horizon => "horizon",
        StepWord::Paused => "paused",
        StepWord::Terminated => "terminated",
        StepWord::Deleted => "deleted",
    }
}

/// What `next` answers.
pub fn next_text(alloc: Global, next: &Next<Token>) -> Result<String, AllocError> {
    match next {
        Next::Job(job) => job_text(alloc, job),
        Next::Idle => String::from_str(alloc, "idle"),
        Next::Finished => String::from_str(alloc, "finished"),
        Next::Stopped { by } => format!(in alloc; "stopped by {by}"),
    }
}

fn job_text(alloc: Global, job: &Job<Token>) -> Result<String, AllocError> {
    match job {
        Job::Prepare { rid, source } => format!(in alloc; "prepare {rid} of source {source}"),
        Job::Step {
            rid,
            pos,
            pipeline,
            kit,
            ..
        } => format!(in alloc; "step {rid} {pos} on {pipeline} by {}", kit.source),
        Job::Analyze { rid } => format!(in alloc; "analyze {rid}"),
    }
}

/// Why a report is refused.
pub fn why_text(alloc: Global, why: Why) -> Result<String, AllocError> {
    match why {
        Why::NoRun => String::from_str(alloc, "no run"),
        Why::WrongStatus { is } => format!(in alloc; "wrong status {}", status_word(is)),
        Why::Foreign { source } => format!(in alloc; "foreign to {source}"),
        Why::Memory => Err(AllocError),
    }
}

/// A value of a dataset: a number, or a list's numbers.
pub fn value_text(alloc: Global, value: Option<&Value>) -> Result<String, AllocError> {
    match value {
        None => String::from_str(alloc, "none"),
        Some(Value::Int(number)) => format!(in alloc; "{number}"),
        Some(Value::List(list)) => list_text(alloc, list.items()),
    }
}

fn list_text(alloc: Global, items: &[i64]) -> Result<String, AllocError> {
    let mut text = String::from_str(alloc, "list")?;
    for item in items {
        let next = format!(in alloc; " {item}")?;
        text.push_str(next.as_str())?;
    }
    Ok(text)
}
