// What the reports of jobs change.

ghost use Rattle.std.specs.Prelude.{◌≡◌, List, if◌then◌else◌, Some, IfOk, OnOk, IsSome};
ghost use Rattle.exp_runs.specs.declared.run.Status.TheVariants as status;
ghost use Rattle.exp_runs.specs.Keys.{run_of};
ghost use Rattle.exp_model.specs.declared.arrival.Arrival.{Arrival};
ghost use Rattle.sched_state.specs.Reports.{refused};
ghost use Rattle.sched_state.specs.Boards.{Becomes, state_with, staged_by};

use crate::board::Board;
use crate::storing::store_all;
use dataset_db::Datasets;
use exp_model::HostStep;
use exp_runs::{Run, Status};
use std::alloc::{AllocError, Global};

// Where a run stands after a stage.
fn stage_status(fine: bool, next: Status) -> Status
    ensures { result ≡ (if fine then next else status.Failed) }
{
    if fine { next } else { Status::Failed }
}

// Where a run stands whose source was refused.
fn refused_status(doomed: bool) -> Status
    ensures { result ≡ (if doomed then status.Deleted else status.Failed) }
{
    if doomed {
        Status::Deleted
    } else {
        Status::Failed
    }
}

impl Board {
    /// The same board.
    pub fn copy(&self, alloc: Global) -> Result<Board, AllocError>
        ensures { IfOk result (λ copy. Becomes (λ state. state) self.now copy) }
    {
        let runs = self.runs.copy(alloc)?;
        let stack = Vec::from_slice(alloc, &self.stack)?;
        let flying = Vec::from_slice(alloc, &self.flying)?;
        Ok(Board {
            runs,
            stack,
            flying,
            clock: self.clock,
            taken: self.taken,
        })
    }

    /// Reports that a run was prepared or analyzed: it is deleted if it was doomed, and else the steps of the stage are done,
    /// up to the first that fails, and it stands where they lead.
    pub fn finish_stage(
        &mut self,
        alloc: Global,
        datasets: &mut Datasets,
        run: &Run,
        steps: &[HostStep],
        next: Status,
    ) -> Result<(), AllocError>
        requires { IsSome (run_of self.old.runs.runs run.now.rid) }
        ensures state { OnOk result ((left : List Arrival) → state_with left datasets.new self.new ≡ staged_by steps.now next run.now (state_with left datasets.old self.old)) }
        ensures taken { OnOk result (self.new.taken ≡ self.old.taken) }
        ensures pipelines { OnOk result (self.new.runs.pipelines ≡ self.old.runs.pipelines) }
    {
        self.land(run.rid);
        if run.doomed {
            return self.set_status(alloc, run.rid, Status::Deleted);
        }
        let fine = store_all(alloc, datasets, steps)?;
        self.set_status(alloc, run.rid, stage_status(fine, next))
    }

    /// Reports that a run's source was refused.
    pub fn refuse(&mut self, alloc: Global, run: &Run) -> Result<(), AllocError>
        requires { run_of self.old.runs.runs run.now.rid ≡ Some run.now }
        ensures { OnOk result (Becomes (refused run.now.rid) self.old self.new) }
    {
        self.land(run.rid);
        self.set_status(alloc, run.rid, refused_status(run.doomed))
    }
}
