// The clock, and jobs that are taken.

ghost use Rattle.std.specs.Prelude.{◌≡◌, ◌≤◌, ◌<◌, List, None, length, slice_index_or, OnOk, IsTrue, IsSome};
ghost use Rattle.std.specs.List.{AllByRecursion};
ghost use Rattle.exp_runs.specs.Keys.{run_of};
ghost use Rattle.exp_model.specs.declared.arrival.Arrival.{Arrival};
ghost use Rattle.dataset_db.specs.Datasets.{Dataset};
ghost use Rattle.sched_state.specs.State.{rid_of};
ghost use Rattle.sched_state.specs.Arrivals.{arrived, at_clock};
ghost use Rattle.sched_state.specs.Picks.{pushed, taken};
ghost use Rattle.exp_model.specs.Sessions.{are_in_order};
ghost use Rattle.sched_state.specs.Boards.{AreNumbered, Becomes, IsActFor, no_arrival, state_of};

use crate::board::Board;
use crate::entry::{Flight, JobName};
use exp_model::Arrival;
use exp_runs::Status;
use std::alloc::{AllocError, Global};

// Puts a run on top of the stack, unless it is on it.
fn put_on(stack: &mut Vec<u64>, rid: u64) -> Result<(), AllocError>
    ensures { OnOk result (stack.new.items ≡ pushed rid stack.old.items) }
{
    if stack.contains(&rid) {
        return Ok(());
    }
    stack.insert(0, rid)?;
    Ok(())
}

fn moment_of(arrivals: &[Arrival], place: usize) -> u64
    requires { place < length arrivals.now }
    ensures { result ≡ (slice_index_or arrivals.now place no_arrival).at }
{
    arrivals[place].at
}

impl Board {
    // Does what arrives at this place of the list.
    fn arrive_at(
        &mut self,
        alloc: Global,
        arrivals: &[Arrival],
        place: usize,
    ) -> Result<(), AllocError>
        requires place { place < length arrivals.now }
        requires acts { AllByRecursion (λ (arrival : Arrival). IsActFor self.old.runs.pipelines arrival.act) arrivals.now }
        requires new { run_of self.old.runs.runs (length self.old.runs.runs) ≡ None }
        ensures { OnOk result (Becomes (λ before. arrived before (slice_index_or arrivals.now place no_arrival).act) self.old self.new) }
    {
        self.arrive(alloc, &arrivals[place].act)
    }

    /// The job is in flight, taken by this chair.
    pub fn begin(&mut self, alloc: Global, chair: u32, job: JobName) -> Result<(), AllocError>
        requires { IsSome (run_of self.old.runs.runs (rid_of job)) }
        ensures { OnOk result (Becomes (taken chair job) self.old self.new) }
    {
        self.flying.push(Flight { chair, job })?;
        match job {
            JobName::Prepare { rid } => self.runs.set_status(alloc, rid, Status::Preparing),
            JobName::Step { rid, .. } => {
                put_on(&mut self.stack, rid)?;
                self.runs.set_status(alloc, rid, Status::Running)
            }
            JobName::Analyze { rid } => self.runs.set_status(alloc, rid, Status::Analyzing),
        }
    }

    /// Moves the clock to a moment, and takes what arrives up to it, in the order of the list.
    pub fn advance(
        &mut self,
        alloc: Global,
        arrivals: &[Arrival],
        clock: u64,
    ) -> Result<(), AllocError>
        requires order { IsTrue (are_in_order arrivals.now) }
        requires taken { self.old.taken ≤ length arrivals.now }
        requires acts { AllByRecursion (λ (arrival : Arrival). IsActFor self.old.runs.pipelines arrival.act) arrivals.now }
        requires numbered { AreNumbered self.old.runs.runs }
        ensures state { OnOk result ((datasets : List Dataset) → state_of arrivals.now datasets self.new ≡ at_clock clock (state_of arrivals.now datasets self.old)) }
        ensures taken { OnOk result (self.new.taken ≤ length arrivals.now) }
        ensures pipelines { OnOk result (self.new.runs.pipelines ≡ self.old.runs.pipelines) }
    {
        self.clock = clock;
        while self.taken < arrivals.len() {
            let at = moment_of(arrivals, self.taken);
            if at > clock {
                break;
            }
            self.arrive_at(alloc, arrivals, self.taken)?;
            self.taken += 1;
        }
        Ok(())
    }
}
