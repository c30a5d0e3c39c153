// The rounds of a worker.

ghost use Rattle.std.specs.Prelude.{[], ◌∷◌, IfOk, OnErr, OnOk};
ghost use Rattle.stage_work.specs.Tasks.{IsTaskIn, job_of};
ghost use Rattle.lab_workers.specs.Leaving.{IsLeft, IsLeftWith};
ghost use Rattle.lab_workers.specs.Rounds.{ComesTo, GoesOn, HasRound, HasWorked};
ghost use Rattle.lab_workers.specs.Turns.{HasTaken};
ghost use Rattle.lab_workers.specs.Workers.{AreDesksOf, IsAtRest, IsWorkerAt, sched_entries};

use super::{WorkEnd, Worker};
use crate::at_desks::AtDesks;
use crate::idling::{give_way, let_all_tick};
use crate::reporting::tell;
use crate::turns::{Turn, next_turn};
use lab_kits::Gate;
use stage_work::{Task, do_task};
use std::alloc::{AllocError, Global};
use std::sync::Wait;
use worker_desks::Desks;

impl Worker {
    /// Works round after round until nothing is left to do or the scheduler is halted. The only error is want of memory.
    pub(super) fn work_on<R: Wait, G: Gate>(
        &mut self,
        rt: &R,
        alloc: Global,
        desks: &Desks,
        gate: &G,
    ) -> Result<WorkEnd, AllocError>
        requires desks { AreDesksOf desks.now }
        requires at { IsWorkerAt desks.now self.old }
        ensures goes { GoesOn desks.now self.old self.new }
        ensures worked { IfOk result (λ end. HasWorked desks.now.session end self.old self.new) }
        ensures left { OnErr result (ComesTo desks.now.session [] (IsLeft desks.now) self.old self.new) }
    {
        for _ in rt.forever() {
            if let Some(end) = self.round(rt, alloc, desks, gate)? {
                return Ok(end);
            }
        }
        unreachable!()
    }

    // One round: takes a job, does and reports it; or lets the cores tick on; or finds that all is over.
    fn round<R: Wait, G: Gate>(
        &mut self,
        rt: &R,
        alloc: Global,
        desks: &Desks,
        gate: &G,
    ) -> Result<Option<WorkEnd>, AllocError>
        requires desks { AreDesksOf desks.now }
        requires at { IsWorkerAt desks.now self.old }
        ensures goes { GoesOn desks.now self.old self.new }
        ensures round { IfOk result (λ end. HasRound desks.now.session end self.old self.new) }
        ensures left { OnErr result (ComesTo desks.now.session [] (IsLeft desks.now) self.old self.new) }
    {
        let turn = next_turn(rt, alloc, desks, &mut self.sched)?;
        match turn {
            Turn::Job(task) => {
                self.do_task(rt, alloc, desks, gate, task)?;
                Ok(None)
            }
            Turn::Idle => {
                let_all_tick(rt, desks.cores.as_slice(), self.cores.as_mut_slice());
                give_way();
                Ok(None)
            }
            Turn::Over => Ok(Some(WorkEnd::Finished)),
            Turn::Stopped { by } => Ok(Some(WorkEnd::Stopped { by })),
        }
    }

    // Does the job that the worker took last, and reports it.
    fn do_task<R: Wait, G: Gate>(
        &mut self,
        rt: &R,
        alloc: Global,
        desks: &Desks,
        gate: &G,
        task: Task,
    ) -> Result<(), AllocError>
        requires desks { AreDesksOf desks.now }
        requires at { IsWorkerAt desks.now self.old }
        requires taken { HasTaken desks.now.session (job_of task) self.old.sched }
        requires is { IsTaskIn desks.now.session (sched_entries self.old.sched.seen) task }
        ensures goes { GoesOn desks.now self.old self.new }
        ensures rests { OnOk result (ComesTo desks.now.session (job_of task ∷ []) (IsAtRest desks.now.session) self.old self.new) }
        ensures left { OnErr result (ComesTo desks.now.session (job_of task ∷ []) (IsLeftWith desks.now task) self.old self.new) }
    {
        let runner = AtDesks {
            rt,
            desks,
            number: self.number,
        };
        let report = do_task(
            &runner,
            alloc,
            self.cores.as_mut_slice(),
            &desks.session,
            gate,
            self.number,
            task,
        )?;
        tell(rt, alloc, desks, &mut self.sched, report)
    }
}
