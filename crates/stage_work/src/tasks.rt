// What a worker is to do, and what it reports.

use exp_model::HostStep;
use exp_runs::Run;
use lab_kits::Kit;
use sched_core::KernelResult;

/// A step of a run, with what belongs to it.
#[derive(Drop)]
pub struct StepTask {
    /// The number of the run.
    pub rid: u64,
    /// The position of the step in the run's list, from 0.
    pub pos: u32,
    /// The pipeline of the run.
    pub pipeline: u32,
    /// The step.
    pub step: HostStep,
    /// What the run's preparation made.
    pub kit: Kit,
}

/// A job, which the worker has taken.
#[derive(Drop)]
pub enum Task {
    /// To prepare this run.
    Prepare { rid: u64, run: Run },
    /// To do this step.
    Step(StepTask),
    /// To have this run analyzed.
    Analyze { rid: u64 },
}

/// What became of a job.
#[derive(Drop)]
pub enum Report {
    /// The run was prepared, and this is its kit.
    Prepared {
        rid: u64,
        kit: Kit,
    },
    /// The run's source is refused.
    Refused {
        rid: u64,
    },
    /// The step was done; a kernel's has a result.
    Stepped {
        rid: u64,
        pos: u32,
        kit: Kit,
        ran: Option<KernelResult>,
    },
    /// The run is to be analyzed now.
    Analyzed {
        rid: u64,
    },
}
