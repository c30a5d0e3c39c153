// What arrives.

ghost use Rattle.std.specs.Prelude.{◌≡◌, ◌<◌, ℕ, List, None, length, OnOk};
ghost use Rattle.exp_runs.specs.declared.run.Run.{Run};
ghost use Rattle.exp_runs.specs.Keys.{run_of};
ghost use Rattle.exp_runs.specs.Statuses.{is_ended};
ghost use Rattle.sched_state.specs.Arrivals.{is_busy, deleted, terminated, submitted, arrived};
ghost use Rattle.sched_state.specs.Boards.{Becomes, IsActFor};

use crate::board::{Board, is_in_flight};
use crate::entry::Flight;
use exp_model::{ArrivalAct, Submission};
use exp_runs::{Run, Status};
use std::alloc::{AllocError, Global};

/// Whether nothing more happens to a run that stands here.
pub fn has_ended(status: Status) -> bool
    ensures { result ≡ is_ended status }
{
    match status {
        Status::Done | Status::Failed | Status::Terminated | Status::Deleted => true,
        _ => false,
    }
}

// Whether a job of the run is in flight.
fn is_at_work(flying: &[Flight], run: &Run) -> bool
    ensures { result ≡ is_busy flying.now run.now }
{
    match run.status {
        Status::Preparing | Status::Analyzing => true,
        Status::Running => is_in_flight(flying, run.rid),
        _ => false,
    }
}

impl Board {
    /// Deletes a run: at once, or at its report where a job of it is in flight. It does nothing where no run has the number, or
    /// the run ended.
    pub fn delete(&mut self, alloc: Global, rid: u64) -> Result<(), AllocError>
        ensures { OnOk result (Becomes (deleted rid) self.old self.new) }
    {
        let Some(run) = self.runs.get(rid) else {
            return Ok(());
        };
        let run = *run;
        if has_ended(run.status) {
            return Ok(());
        }
        if is_at_work(&self.flying, &run) {
            self.runs.set_fields(rid, run.pos, run.terminate, true);
            return Ok(());
        }
        self.set_off_stack(alloc, rid, Status::Deleted)
    }

    /// Orders a run that holds a core to end at its next pause, and deletes one that doesn't yet.
    pub fn terminate(&mut self, alloc: Global, rid: u64) -> Result<(), AllocError>
        ensures { OnOk result (Becomes (terminated rid) self.old self.new) }
    {
        let Some(run) = self.runs.get(rid) else {
            return Ok(());
        };
        let run = *run;
        match run.status {
            Status::Running | Status::Paused => {
                self.runs.set_fields(rid, run.pos, true, run.doomed);
                Ok(())
            }
            Status::Pending | Status::Preparing | Status::Prepared => self.delete(alloc, rid),
            _ => Ok(()),
        }
    }

    /// Submits a run. Its number is the count of runs before it.
    pub fn submit(&mut self, alloc: Global, asked: &Submission) -> Result<(), AllocError>
        requires pipeline { asked.now.pipeline < self.old.runs.pipelines }
        requires new { run_of self.old.runs.runs (length self.old.runs.runs) ≡ None }
        ensures { OnOk result (Becomes (submitted asked.now) self.old self.new) }
    {
        let run = Run {
            rid: self.runs.len(),
            pipeline: asked.pipeline,
            priority: asked.priority,
            due: asked.due,
            flush: asked.flush,
            experiment: asked.experiment,
            pos: 0,
            terminate: false,
            doomed: false,
            status: Status::Pending,
        };
        match self.runs.add(alloc, run) {
            Ok(()) => Ok(()),
            Err(_) => Err(AllocError),
        }
    }

    /// Does what arrives.
    pub fn arrive(&mut self, alloc: Global, act: &ArrivalAct) -> Result<(), AllocError>
        requires act { IsActFor self.old.runs.pipelines act.now }
        requires new { run_of self.old.runs.runs (length self.old.runs.runs) ≡ None }
        ensures { OnOk result (Becomes (λ before. arrived before act.now) self.old self.new) }
    {
        match act {
            ArrivalAct::Submit(asked) => self.submit(alloc, asked),
            ArrivalAct::Delete { rid } => self.delete(alloc, *rid),
            ArrivalAct::Terminate { rid } => self.terminate(alloc, *rid),
        }
    }
}
