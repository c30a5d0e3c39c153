// Reports at the scheduler's desk.

ghost use Rattle.std.specs.Prelude.{◌≡◌, OnErr, OnOk};
ghost use Rattle.stage_work.specs.Reports.{IsRight, job_told};
ghost use Rattle.desk_kernels.specs.Chairs.{IsAt};
ghost use Rattle.lab_workers.specs.Reports.{HasTold};
ghost use Rattle.lab_workers.specs.Turns.{Follows, HasTaken, PutsNothing};
ghost use Rattle.lab_workers.specs.Workers.{AreDesksOf, sched_entries};

use desk::Chair;
use lab_kits::Kit;
use sched_core::Sched;
use stage_work::{Report, write_report};
use std::alloc::{AllocError, Global};
use std::sync::Wait;
use worker_desks::Desks;

/// Takes the scheduler, reports the job that the chair took last, and puts the scheduler back. The only error is want of memory, and
/// then nothing was put.
pub(crate) fn tell<R: Wait>(
    rt: &R,
    alloc: Global,
    desks: &Desks,
    chair: &mut Chair<Sched<Kit>>,
    report: Report,
) -> Result<(), AllocError>
    requires desks { AreDesksOf desks.now }
    requires at { IsAt desks.now.sched chair.old }
    requires taken { HasTaken desks.now.session (job_told report) chair.old }
    requires right { IsRight desks.now.session (sched_entries chair.old.seen) report }
    ensures told { OnOk result (HasTold desks.now.session report chair.old chair.new) }
    ensures untold { OnErr result (PutsNothing chair.old chair.new) }
    ensures follows { Follows chair.old chair.new }
{
    let who = chair.number();
    let mut held = desks.sched.take(rt, chair);
    let sched = held.value();
    let _known = sched.history();
    let told = write_report(alloc, sched, who, report);
    desks.sched.put(chair, held);
    told
}
