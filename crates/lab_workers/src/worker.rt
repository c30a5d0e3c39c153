// A worker at desks.

mod rounds;

ghost use Rattle.std.specs.Prelude.{◌≡◌, ◌≢◌, ◌<◌, ℕ, length, None, Some, IsSome, IsTrue};
ghost use Rattle.desk_rule.specs.Histories.{Each};
ghost use Rattle.sched_state.specs.Lawful.{halted_by, state_after};
ghost use Rattle.sched_state.specs.Picks.{is_over};
ghost use Rattle.lab_workers.specs.Leaving.{IsLeft};
ghost use Rattle.lab_workers.specs.Rounds.{IsEnd};
ghost use Rattle.lab_workers.specs.Workers.{AreDesksOf, HaltsOnce, halts, IsAtRest, IsFree, IsLater, IsWorkerAt, sched_entries};

use crate::halting::halt;
use desk::Chair;
use lab_kits::{Gate, Kit};
use rtio_core::Core;
use sched_core::Sched;
use std::alloc::Global;
use std::marker::Model;
use std::sync::Wait;
use worker_desks::Desks;

/// Why a worker ended.
#[derive(Clone, Copy, Debug, PartialEq, Eq)]
pub enum WorkEnd {
    /// Nothing is left to do.
    Finished,
    /// The scheduler was halted, by this chair.
    Stopped { by: u32 },
    /// Memory ran out, and the scheduler is halted.
    Memory,
}

/// A worker, with a chair at each desk.
#[derive(Drop)]
pub struct Worker {
    number: u32,
    sched: Chair<Sched<Kit>>,
    cores: Vec<Chair<Core>>,
}

impl Model for Worker {
    ghost use Rattle.lab_workers.specs.Workers.{WorkerValue};
    ghost use Rattle.lab_workers.specs.WorkersInside.{worker_value, IsWorkerInside};

    ghost Value = { WorkerValue };

    ghost view = { worker_value };

    ghost invariant = { IsWorkerInside };
}

impl Worker {
    /// A worker with these chairs, which have its number and hold nothing: one at the scheduler's desk, and one at the desk of each
    /// pipeline's core, in the order of the pipelines.
    pub fn new(number: u32, sched: Chair<Sched<Kit>>, cores: Vec<Chair<Core>>) -> Worker
        requires sched { IsFree number sched }
        requires cores { Each (IsFree number) cores.items }
        ensures { result ≡ record { number = number; sched = sched; cores = cores.items } }
    {
        Worker {
            number,
            sched,
            cores,
        }
    }

    /// Its chairs, none of which holds anything.
    pub fn into_chairs(self) -> (Chair<Sched<Kit>>, Vec<Chair<Core>>)
        ensures sched { (result.0 ≡ self.sched) × IsFree self.number self.sched }
        ensures cores { (result.1.items ≡ self.cores) × Each (IsFree self.number) self.cores }
    {
        let Worker {
            number: _,
            sched,
            cores,
        } = self;
        (sched, cores)
    }

    /// Takes jobs, does and reports them, until nothing is left to do or the scheduler is halted. A job is taken under the scheduler's
    /// desk and done outside of it. The worker passes the gate directly before it compiles, and directly after it put a core back
    /// whose session has ended; it holds no desk there. Where the jobs of others have to be reported first it lets each core tick,
    /// 4,096 cycles at most, and asks again. For want of memory, and only then, it halts the scheduler.
    pub fn work<R: Wait, G: Gate>(
        &mut self,
        rt: &R,
        alloc: Global,
        desks: &Desks,
        gate: &G,
    ) -> WorkEnd
        requires desks { AreDesksOf desks.now }
        requires at { IsWorkerAt desks.now self.old }
        // It is the same worker at the same desks, and has seen, put and taken more at the scheduler's.
        ensures at { IsWorkerAt desks.now self.new }
        ensures later { IsLater self.old self.new }
        // It has taken the scheduler in this call.
        ensures taken { length self.old.sched.takings < length self.new.sched.takings }
        // Unless memory ran out it ends as the scheduler answered it in this call: the last time that it took the scheduler it asked for a
        // job, and was told that nothing is left to do, or that the chair named has halted the scheduler.
        ensures asked { result ≢ WorkEnd.Memory → IsEnd desks.now.session self.old.sched self.new.sched result }
        // Where it had reported each job that it took, had done on each core just what it reported, and no session of its own was open, this
        // is so again, unless memory ran out.
        ensures rest { result ≢ WorkEnd.Memory → IsAtRest desks.now.session self.old → IsAtRest desks.now.session self.new }
        // Where memory ran out all is so still but for one job at most, which it took last and hasn't reported: of a kernel's step there
        // may be just its session besides, up to some request or the whole.
        ensures left { result ≡ WorkEnd.Memory → IsAtRest desks.now.session self.old → IsLeft desks.now self.new }
        // No arrival is left, every run has ended, and nobody has halted the scheduler.
        ensures finished { result ≡ WorkEnd.Finished → (halted_by (sched_entries self.new.sched.seen) ≡ None)
            × IsTrue (is_over (state_after desks.now.session (sched_entries self.new.sched.seen))) }
        // This chair has halted the scheduler.
        ensures stopped { (by : ℕ) → result ≡ WorkEnd.Stopped by → halted_by (sched_entries self.new.sched.seen) ≡ Some by }
        // Where memory ran out the scheduler is halted, by one halt of the worker's at most; else the worker has put no halt.
        ensures memory { result ≡ WorkEnd.Memory → IsSome (halted_by (sched_entries self.new.sched.seen)) }
        ensures halted { result ≡ WorkEnd.Memory → HaltsOnce self.old.sched self.new.sched }
        ensures halts { result ≢ WorkEnd.Memory → halts self.new.sched ≡ halts self.old.sched }
    {
        match self.work_on(rt, alloc, desks, gate) {
            Ok(end) => end,
            Err(_) => {
                halt(rt, alloc, desks, &mut self.sched);
                WorkEnd::Memory
            }
        }
    }
}
