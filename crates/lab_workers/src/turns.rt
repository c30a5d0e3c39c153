// A worker's turn at the scheduler's desk.

ghost use Rattle.std.specs.Prelude.{◌≡◌, List, IfOk, OnErr};
ghost use Rattle.sched_state.specs.declared.entry.SchedAct.{SchedAct};
ghost use Rattle.sched_core.specs.Scheds.{IsSched};
ghost use Rattle.desk_kernels.specs.Chairs.{IsAt};
ghost use Rattle.lab_workers.specs.Turns.{Follows, HasTurned, IsTurn, PutsNothing, adds};
ghost use Rattle.lab_workers.specs.Workers.{AreDesksOf};

use desk::Chair;
use lab_kits::Kit;
use sched_core::{Next, Sched};
use stage_work::{Task, task_of};
use std::alloc::{AllocError, Global};
use std::sync::Wait;
use worker_desks::Desks;

/// What a worker finds at the scheduler's desk.
#[derive(Drop)]
pub(crate) enum Turn {
    /// A job.
    Job(Task),
    /// Nothing before a job of another is reported.
    Idle,
    /// Nothing is left to do.
    Over,
    /// The scheduler was halted, by this chair.
    Stopped { by: u32 },
}

/// Takes the scheduler, asks for a job, and puts the scheduler back. The only error is want of memory, and then nothing was put.
pub(crate) fn next_turn<R: Wait>(
    rt: &R,
    alloc: Global,
    desks: &Desks,
    chair: &mut Chair<Sched<Kit>>,
) -> Result<Turn, AllocError>
    requires desks { AreDesksOf desks.now }
    requires at { IsAt desks.now.sched chair.old }
    ensures turn { IfOk result (λ turn. HasTurned desks.now.session turn chair.old chair.new) }
    ensures err { OnErr result (PutsNothing chair.old chair.new) }
    ensures follows { Follows chair.old chair.new }
{
    let who = chair.number();
    let mut held = desks.sched.take(rt, chair);
    let turn = find_turn(alloc, held.value(), who);
    desks.sched.put(chair, held);
    turn
}

// What there is to do for a chair.
fn find_turn(alloc: Global, sched: &mut Sched<Kit>, who: u32) -> Result<Turn, AllocError>
    ensures known { IsSched sched.old }
    ensures turn { IfOk result (λ turn. IsTurn who turn sched.old sched.new) }
    ensures err { OnErr result (sched.new ≡ sched.old) }
    ensures went { (acts : List SchedAct) × (sched.new ≡ adds who acts sched.old) }
{
    let _before = sched.history();
    let next = sched.next(alloc, who)?;
    let _known = sched.history();
    match next {
        Next::Job(job) => Ok(Turn::Job(task_of(sched, job, who))),
        Next::Idle => Ok(Turn::Idle),
        Next::Finished => Ok(Turn::Over),
        Next::Stopped { by } => Ok(Turn::Stopped { by }),
    }
}
