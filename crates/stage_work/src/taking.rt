// Jobs as a worker takes them.

ghost use Rattle.std.specs.Prelude.{◌≡◌};
ghost use Rattle.sched_core.specs.Calls.{IsJobFor, name_of};
ghost use Rattle.sched_core.specs.Scheds.{sched_state};
ghost use Rattle.lab_kits.specs.Kits.{KitCall, KitText, kit_source};
ghost use Rattle.stage_work.specs.Jobs.{Flies};
ghost use Rattle.stage_work.specs.Tasks.{IsTaskIn, job_of};

use crate::reporting::run_in_flight;
use crate::tasks::{StepTask, Task};
use lab_kits::Kit;
use sched_core::{Job, Sched};

/// A job of a chair that is in flight; a preparation with its run.
pub fn task_of(sched: &Sched<Kit>, job: Job<Kit>, who: u32) -> Task
    requires flies { Flies who (name_of job) sched.now }
    requires is { IsJobFor kit_source KitText KitCall sched.now.session (sched_state sched.now) job }
    ensures name { job_of result ≡ name_of job }
    ensures is { IsTaskIn sched.now.session sched.now.history result }
{
    match job {
        Job::Prepare { rid, .. } => Task::Prepare {
            rid,
            run: run_in_flight(sched, rid),
        },
        Job::Step {
            rid,
            pos,
            pipeline,
            step,
            kit,
        } => Task::Step(StepTask {
            rid,
            pos,
            pipeline,
            step,
            kit,
        }),
        Job::Analyze { rid } => Task::Analyze { rid },
    }
}
