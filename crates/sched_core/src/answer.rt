// What a scheduler answers.

use exp_model::HostStep;
use exp_runs::Status;
use sched_state::KernelResult;

/// A job that was taken.
#[derive(Debug, Drop)]
pub enum Job<P> {
    /// To compile this source for the run, and to do its prepare steps.
    Prepare {
        rid: u64,
        source: u32,
    },
    /// To do this step of the run on the core of its pipeline; `kit` is what its preparation made.
    Step {
        rid: u64,
        pos: u32,
        pipeline: u32,
        step: HostStep,
        kit: P,
    },
    /// To do the run's analyze steps.
    Analyze {
        rid: u64,
    },
}

/// What there is to do.
#[derive(Debug, Drop)]
pub enum Next<P> {
    /// This job.
    Job(Job<P>),
    /// Nothing before a job in flight is reported.
    Idle,
    /// Nothing any more: no arrival is left, and every run ended.
    Finished,
    /// Nothing any more: this chair halted the scheduler.
    Stopped { by: u32 },
}

/// Why a report is refused.
#[derive(Clone, Copy, Debug, PartialEq, Eq)]
pub enum Why {
    /// No run has this number.
    NoRun,
    /// The run has no such job in flight; it stands here.
    WrongStatus { is: Status },
    /// The kit is of another source than the run, whose source is this.
    Foreign { source: u32 },
    /// For want of memory.
    Memory,
}

/// A report that was refused, with what was handed in.
#[derive(Debug, Drop)]
pub struct Refused<P> {
    /// Why.
    pub why: Why,
    /// What the run's preparation made.
    pub kit: P,
    /// What its kernel step came to.
    pub result: Option<KernelResult>,
}

/// A report that was refused.
#[derive(Clone, Copy, Debug, PartialEq, Eq)]
pub struct RefusedRid {
    /// Why.
    pub why: Why,
}
