// A laboratory of one worker.

ghost use Rattle.std.specs.Prelude.{◌≡◌, ◌<◌, [], true, false, IfOk, IsTrue, OnErr, OnOk};
ghost use Rattle.sched_state.specs.Picks.{is_over};
ghost use Rattle.sched_core.specs.Scheds.{new_sched, sched_state};
ghost use Rattle.lab_ties.specs.Settings.{new_cores};
ghost use Rattle.stage_work.specs.Jobs.{Flies, HasReported};
ghost use Rattle.stage_work.specs.Serving.{AreServedCores, IsLeft, IsServed, LeavesCores, jobs_left_at};
ghost use Rattle.stage_work.specs.Tasks.{IsTaskIn, job_of};

use crate::doing::do_task;
use crate::owned::Owner;
use crate::reporting::write_report;
use crate::taking::task_of;
use crate::tasks::Task;
use exp_model::Session;
use lab_kits::{Gate, Kit};
use rtio_core::Core;
use sched_core::{Next, Sched};
use std::alloc::{AllocError, Global};

/// Does the work of one worker, as chair 0, until nothing is left to do: takes the job that is due, does it, and reports it. The
/// scheduler is new and of this session, and the cores are new, one for each pipeline with its settings. The worker passes the
/// gate directly before it compiles, and directly after a kernel has ended. The only error is want of memory, and it leaves all as
/// the last calls did that succeeded.
pub fn serve<G: Gate>(
    alloc: Global,
    sched: &mut Sched<Kit>,
    cores: &mut [Core],
    session: &Session,
    gate: &G,
) -> Result<(), AllocError>
    requires sched { sched.old ≡ new_sched session.now }
    requires cores { cores.old ≡ new_cores session.now }
    // Nothing is in flight. Of each pipeline the sessions on its core and the reports of its kernel steps are the same steps, each once
    // and in one order; each session is of its step's source, function and arguments, and what that means; each report has the
    // session's result. Each source was judged rightly, and no cycle passed but where a kernel waited.
    ensures served { OnOk result (IsServed session.now [] sched.new cores.new) }
    // No arrival is left, and every run has ended.
    ensures over { OnOk result (IsTrue (is_over (sched_state sched.new))) }
    // Without memory nothing is in flight and all is so still, or one job is. Then the cores are so too, but where it is a kernel's
    // step its core may have its session besides: up to some request, or the whole.
    ensures left { OnErr result (IsLeft session.now sched.new cores.new) }
{
    loop {
        let more = serve_next(alloc, sched, cores, session, gate)?;
        if !more {
            return Ok(());
        }
    }
}

// Takes the job that is due, does it and reports it; false where nothing is left to do.
fn serve_next<G: Gate>(
    alloc: Global,
    sched: &mut Sched<Kit>,
    cores: &mut [Core],
    session: &Session,
    gate: &G,
) -> Result<bool, AllocError>
    requires { IsServed session.now [] sched.old cores.old }
    ensures served { OnOk result (IsServed session.now [] sched.new cores.new) }
    ensures over { IfOk result (λ more. more ≡ false → IsTrue (is_over (sched_state sched.new))) }
    ensures fewer { IfOk result (λ more. more ≡ true → jobs_left_at sched.new < jobs_left_at sched.old) }
    ensures left { OnErr result (IsLeft session.now sched.new cores.new) }
{
    let next = sched.next(alloc, 0)?;
    let _known = sched.history();
    match next {
        Next::Job(job) => {
            let task = task_of(sched, job, 0);
            do_job(alloc, sched, cores, session, gate, task)?;
            let _reported = sched.history();
            Ok(true)
        }
        Next::Finished => Ok(false),
        Next::Idle | Next::Stopped { .. } => unreachable!(),
    }
}

// Does the job in flight, and reports it.
fn do_job<G: Gate>(
    alloc: Global,
    sched: &mut Sched<Kit>,
    cores: &mut [Core],
    session: &Session,
    gate: &G,
    task: Task,
) -> Result<(), AllocError>
    requires session { sched.old.session ≡ session.now }
    requires flies { Flies 0 (job_of task) sched.old }
    requires is { IsTaskIn sched.old.session sched.old.history task }
    requires cores { AreServedCores session.now sched.old.history cores.old }
    ensures reports { OnOk result (HasReported 0 (job_of task) sched.old sched.new) }
    ensures cores { OnOk result (AreServedCores session.now sched.new.history cores.new) }
    ensures err { OnErr result (sched.new ≡ sched.old) }
    ensures left { OnErr result (LeavesCores session.now task cores.old cores.new) }
{
    let _known = sched.history();
    let owner = Owner {
        units: session.budget,
    };
    let report = do_task(&owner, alloc, cores, session, gate, 0, task)?;
    write_report(alloc, sched, 0, report)
}
