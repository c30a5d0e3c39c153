// A halt of the scheduler.

ghost use Rattle.std.specs.Prelude.{IsSome};
ghost use Rattle.sched_state.specs.Lawful.{halted_by};
ghost use Rattle.desk_kernels.specs.Chairs.{IsAt};
ghost use Rattle.lab_workers.specs.Turns.{HasHalted};
ghost use Rattle.lab_workers.specs.Workers.{AreDesksOf, sched_entries};

use desk::Chair;
use lab_kits::Kit;
use sched_core::Sched;
use std::alloc::Global;
use std::sync::Wait;
use worker_desks::Desks;

/// Takes the scheduler, halts it where nobody did, and puts it back.
pub(crate) fn halt<R: Wait>(rt: &R, alloc: Global, desks: &Desks, chair: &mut Chair<Sched<Kit>>)
    requires desks { AreDesksOf desks.now }
    requires at { IsAt desks.now.sched chair.old }
    ensures halts { HasHalted desks.now.session chair.old chair.new }
    ensures halted { IsSome (halted_by (sched_entries chair.new.seen)) }
{
    let who = chair.number();
    let mut held = desks.sched.take(rt, chair);
    let sched = held.value();
    // (read for its proof: a history that is held is one that its readers know)
    let _known = sched.history();
    sched.stop(alloc, who);
    desks.sched.put(chair, held);
}
