// The state of a scheduler, as it is kept.

ghost use Rattle.std.specs.Prelude.{◌≡◌, ◌==◌, ℕ, List, IfOk, OnOk, IsSome, filter, not};
ghost use Rattle.std.specs.List.{list_any};
ghost use Rattle.exp_runs.specs.Keys.{run_of};
ghost use Rattle.exp_runs.specs.Statuses.{is_ended};
ghost use Rattle.exp_runs.specs.Table.{with_status};
ghost use Rattle.exp_model.specs.declared.arrival.Arrival.{Arrival};
ghost use Rattle.sched_state.specs.declared.entry.Flight.{Flight};
ghost use Rattle.sched_state.specs.State.{rid_of, is_step_of, with_run, off_stack, landed};
ghost use Rattle.sched_state.specs.Boards.{Becomes};

use crate::entry::{Flight, JobName};
use exp_runs::{Runs, Status};
use std::alloc::{AllocError, Global};

/// Where a scheduler stands, but for its datasets.
#[derive(Debug, Drop)]
pub struct Board {
    /// The runs, each at the place of its number.
    pub runs: Runs,
    /// The runs that hold a core, the last that got it first.
    pub stack: Vec<u64>,
    /// The jobs in flight.
    pub flying: Vec<Flight>,
    /// The lab clock.
    pub clock: u64,
    /// How many arrivals were taken.
    pub taken: usize,
}

// The run of a job.
fn run_of_job(job: JobName) -> u64
    ensures { result ≡ rid_of job }
{
    match job {
        JobName::Prepare { rid } | JobName::Step { rid, .. } | JobName::Analyze { rid } => rid,
    }
}

/// Whether a step of the run is in flight.
pub fn is_in_flight(flying: &[Flight], rid: u64) -> bool
    ensures { result ≡ list_any (λ (flight : Flight). is_step_of rid flight.job) flying.now }
{
    flying.iter().any(|flight| is_step(flight.job, rid))
}

fn is_step(job: JobName, rid: u64) -> bool
    ensures { result ≡ is_step_of rid job }
{
    match job {
        JobName::Step { rid: other, .. } => other == rid,
        _ => false,
    }
}

// Takes a run off the stack.
fn take_off(stack: &mut Vec<u64>, rid: u64)
    ensures { stack.new.items ≡ filter (λ other. not (other == rid)) stack.old.items }
{
    stack.retain(|other| *other != rid);
}

// The jobs of a run aren't in flight any more.
fn land_all(flying: &mut Vec<Flight>, rid: u64)
    ensures { flying.new.items ≡ filter (λ (flight : Flight). not (rid_of flight.job == rid)) flying.old.items }
{
    flying.retain(|flight| run_of_job(flight.job) != rid);
}

impl Board {
    /// Sets where a run stands.
    pub fn set_status(&mut self, alloc: Global, rid: u64, status: Status) -> Result<(), AllocError>
        requires { IsSome (run_of self.old.runs.runs rid) }
        ensures { OnOk result (Becomes (with_run (with_status status) rid) self.old self.new) }
    {
        self.runs.set_status(alloc, rid, status)
    }

    /// The same for a run that holds no core any more.
    pub fn set_off_stack(
        &mut self,
        alloc: Global,
        rid: u64,
        status: Status,
    ) -> Result<(), AllocError>
        requires { IsSome (run_of self.old.runs.runs rid) }
        ensures { OnOk result (Becomes (off_stack status rid) self.old self.new) }
    {
        take_off(&mut self.stack, rid);
        self.runs.set_status(alloc, rid, status)
    }

    /// The job of a run isn't in flight any more.
    pub fn land(&mut self, rid: u64)
        ensures change { Becomes (landed rid) self.old self.new }
        ensures runs { self.new.runs ≡ self.old.runs }
    {
        land_all(&mut self.flying, rid);
    }
}
