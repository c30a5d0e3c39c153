// What the report of a step changes.

ghost use Rattle.std.specs.Prelude.{◌≡◌, ◌≤◌, ◌<◌, ◌+◌, ◌^◌, ◌&&◌, ℕ, ℤ, List, Option, None, Some, length, nat_lt, slice_get, true, IfOk, OnOk, IsSome, IsTrue};
ghost use Rattle.std.specs.Option.{option_copied};
ghost use Rattle.exp_runs.specs.declared.run.Run.{Run};
ghost use Rattle.exp_runs.specs.Keys.{run_of, some_higher};
ghost use Rattle.exp_model.specs.declared.arrival.Arrival.{Arrival};
ghost use Rattle.exp_model.specs.declared.session.Session.{Session};
ghost use Rattle.exp_model.specs.declared.step.HostStep.TheVariants as step;
ghost use Rattle.exp_model.specs.Sessions.{is_session, sizes_of, submits};
ghost use Rattle.exp_model.specs.Steps.{is_run_step};
ghost use Rattle.dataset_db.specs.Datasets.{Dataset};
ghost use Rattle.sched_state.specs.declared.board.Board.{Board};
ghost use Rattle.sched_state.specs.declared.entry.KernelResult.{KernelResult};
ghost use Rattle.sched_state.specs.Arrivals.{at_clock};
ghost use Rattle.sched_state.specs.Datasets.{changes_by};
ghost use Rattle.sched_state.specs.Reports.{after_clock, after_storing, effect, is_full_of_runs, moved_on, paused, run_effect, run_steps, settle, settled, step_effect, submissions_left};
ghost use Rattle.sched_state.specs.State.{with_run};
ghost use Rattle.sched_state.specs.Boards.{AreNumbered, Becomes, state_of, state_with};
ghost use Rattle.sched_state.specs.Stepped.{CanMoveOn, effect_of};

use crate::board::Board;
use crate::ending::{
    StepEnd, check_end, fails, goes_on, is_stacked, kernel_end, status_then, terminated,
};
use crate::entry::{KernelResult, StepWord};
use crate::storing::{store, store_sets};
use dataset_db::Datasets;
use exp_model::{Arrival, ArrivalAct, HostStep, Session, Submission};
use exp_runs::{Run, Status};
use limits::MOST_RUNS;
use std::alloc::{AllocError, Global};

// The steps of the run's experiment.
fn run_steps<'a>(session: &'a Session, run: &Run) -> &'a [HostStep]
    ensures { result.now ≡ run_steps session.now run.now }
{
    match session.experiments.items().get(run.experiment as usize) {
        Some(experiment) => experiment.run.items(),
        None => &[],
    }
}

// The step of a run at a position.
fn found_step<'a>(session: &'a Session, run: &Run, pos: u32) -> Option<&'a HostStep>
    ensures { option_copied result ≡ slice_get (run_steps session.now run.now) pos }
{
    run_steps(session, run).get(pos as usize)
}

fn is_submission(arrival: &Arrival) -> bool
    ensures { result ≡ submits arrival.now }
{
    matches!(arrival.act, ArrivalAct::Submit(_))
}

// How many submissions are still to arrive.
fn submissions_left(arrivals: &[Arrival]) -> usize
    ensures { result ≡ submissions_left arrivals.now }
{
    arrivals
        .iter()
        .filter(|arrival| is_submission(arrival))
        .count()
}

// Does what a kernel did to datasets, and tells what it comes to.
fn kernel_step(
    alloc: Global,
    datasets: &mut Datasets,
    ran: Option<&KernelResult>,
) -> Result<StepEnd, AllocError>
    ensures { IfOk result (λ end. (session : Session) (run : Run) (name : List ℕ) (args : List ℤ) (left : List Arrival) (board : Board) →
        effect_of end (state_with left datasets.new board) ≡ effect session run (step.Kernel name args) (option_copied ran.entry) (state_with left datasets.old board)) }
{
    let Some(result) = ran else {
        return Ok(goes_on());
    };
    store_sets(alloc, datasets, result.sets.items())?;
    Ok(kernel_end(result.outcome))
}

// Does what a step does to datasets, and tells what it comes to.
fn store_step(
    alloc: Global,
    datasets: &mut Datasets,
    step: &HostStep,
) -> Result<StepEnd, AllocError>
    ensures { IfOk result (λ end. (left : List Arrival) (board : Board) →
        effect_of end (state_with left datasets.new board) ≡ after_storing (state_with left datasets.old board) (changes_by step.now datasets.old)) }
{
    if store(alloc, datasets, step)? {
        Ok(goes_on())
    } else {
        Ok(fails(StepWord::Failed))
    }
}

// The run, a position further.
fn moved_on(run: Run) -> Run
    requires { run.pos + 1 < 2 ^ 32 }
    ensures { result ≡ moved_on run }
{
    Run {
        pos: run.pos + 1,
        ..run
    }
}

impl Board {
    // Whether a run lends its core at a pause: it has steps left, and some run is higher.
    fn lends(&self, session: &Session, run: &Run) -> bool
        requires { IsSome (run_of self.now.runs.runs run.now.rid) }
        ensures { result ≡ (nat_lt run.now.pos (length (run_steps session.now run.now)) && some_higher self.now.runs.runs run.now.rid self.now.clock) }
    {
        (run.pos as usize) < run_steps(session, run).len()
            && self.runs.higher_due(run.rid, self.clock)
    }

    // What a pause comes to.
    fn pause_end(&self, session: &Session, run: &Run) -> StepEnd
        requires { IsSome (run_of self.now.runs.runs run.now.rid) }
        ensures { (left : List Arrival) (datasets : List Dataset) →
            effect_of result (state_with left datasets self.now) ≡ paused session.now run.now (state_with left datasets self.now) }
    {
        if run.terminate {
            return terminated();
        }
        if self.lends(session, run) {
            return StepEnd {
                word: StepWord::Paused,
                status: Status::Paused,
            };
        }
        goes_on()
    }

    // Whether there is no room for one more run.
    fn is_full_of_runs(&self, arrivals: &[Arrival]) -> bool
        requires { self.now.taken ≤ length arrivals.now }
        ensures { (datasets : List Dataset) → result ≡ is_full_of_runs (state_of arrivals.now datasets self.now) }
    {
        let left = submissions_left(&arrivals[self.taken..]) as u64;
        self.runs.len().saturating_add(left) >= MOST_RUNS
    }

    // Submits a run if there is room for it.
    fn submit_step(
        &mut self,
        alloc: Global,
        arrivals: &[Arrival],
        asked: &Submission,
    ) -> Result<StepEnd, AllocError>
        requires taken { self.old.taken ≤ length arrivals.now }
        requires pipeline { asked.now.pipeline < self.old.runs.pipelines }
        requires new { run_of self.old.runs.runs (length self.old.runs.runs) ≡ None }
        ensures effect { IfOk result (λ end. (session : Session) (run : Run) (ran : Option KernelResult) (datasets : List Dataset) →
            effect_of end (state_of arrivals.now datasets self.new) ≡ effect session run (step.Submit asked.now) ran (state_of arrivals.now datasets self.old)) }
        ensures known { OnOk result ((rid : ℕ) → IsSome (run_of self.old.runs.runs rid) → IsSome (run_of self.new.runs.runs rid)) }
        ensures taken { OnOk result (self.new.taken ≡ self.old.taken) }
        ensures pipelines { OnOk result (self.new.runs.pipelines ≡ self.old.runs.pipelines) }
    {
        if self.is_full_of_runs(arrivals) {
            return Ok(fails(StepWord::Failed));
        }
        self.submit(alloc, asked)?;
        Ok(goes_on())
    }

    // Does a step, and tells what it comes to; the run's position and the clock have risen by then.
    fn do_step(
        &mut self,
        alloc: Global,
        datasets: &mut Datasets,
        session: &Session,
        run: &Run,
        step: &HostStep,
        ran: Option<&KernelResult>,
    ) -> Result<StepEnd, AllocError>
        requires fits { is_run_step (sizes_of session.now) step.now ≡ true }
        requires pipelines { self.old.runs.pipelines ≡ length session.now.pipelines }
        requires taken { self.old.taken ≤ length session.now.arrivals }
        requires new { run_of self.old.runs.runs (length self.old.runs.runs) ≡ None }
        requires run { IsSome (run_of self.old.runs.runs run.now.rid) }
        ensures effect { IfOk result (λ end. effect_of end (state_of session.now.arrivals datasets.new self.new)
            ≡ effect session.now run.now step.now (option_copied ran.entry) (state_of session.now.arrivals datasets.old self.old)) }
        ensures run { OnOk result (IsSome (run_of self.new.runs.runs run.now.rid)) }
        ensures taken { OnOk result (self.new.taken ≡ self.old.taken) }
        ensures pipelines { OnOk result (self.new.runs.pipelines ≡ self.old.runs.pipelines) }
    {
        match step {
            HostStep::Kernel { .. } => kernel_step(alloc, datasets, ran),
            HostStep::Pause => Ok(self.pause_end(session, run)),
            HostStep::CheckTermination => Ok(check_end(run)),
            HostStep::Submit(asked) => self.submit_step(alloc, session.arrivals.items(), asked),
            HostStep::Set { .. } | HostStep::Append { .. } | HostStep::Sum { .. } => {
                store_step(alloc, datasets, step)
            }
        }
    }

    // Does the step of a run at a position, unless the run is doomed, and tells what it comes to.
    fn run_step(
        &mut self,
        alloc: Global,
        datasets: &mut Datasets,
        session: &Session,
        run: &Run,
        pos: u32,
        ran: Option<&KernelResult>,
    ) -> Result<StepEnd, AllocError>
        requires session { IsTrue (is_session session.now) }
        requires pipelines { self.old.runs.pipelines ≡ length session.now.pipelines }
        requires taken { self.old.taken ≤ length session.now.arrivals }
        requires numbered { AreNumbered self.old.runs.runs }
        requires run { IsSome (run_of self.old.runs.runs run.now.rid) }
        ensures effect { IfOk result (λ end. effect_of end (state_of session.now.arrivals datasets.new self.new)
            ≡ run_effect session.now run.now (slice_get (run_steps session.now run.now) pos) (option_copied ran.entry) (state_of session.now.arrivals datasets.old self.old)) }
        ensures run { OnOk result (IsSome (run_of self.new.runs.runs run.now.rid)) }
        ensures taken { OnOk result (self.new.taken ≡ self.old.taken) }
        ensures pipelines { OnOk result (self.new.runs.pipelines ≡ self.old.runs.pipelines) }
    {
        let Some(step) = found_step(session, run, pos) else {
            return Ok(goes_on());
        };
        if run.doomed {
            return Ok(StepEnd {
                word: StepWord::Deleted,
                status: Status::Deleted,
            });
        }
        self.do_step(alloc, datasets, session, run, step, ran)
    }

    // Sets where a run stands; one that neither runs nor is paused is on no stack.
    fn settle(&mut self, alloc: Global, rid: u64, status: Status) -> Result<(), AllocError>
        requires { IsSome (run_of self.old.runs.runs rid) }
        ensures { OnOk result (Becomes (settle status rid) self.old self.new) }
    {
        if is_stacked(status) {
            self.set_status(alloc, rid, status)
        } else {
            self.set_off_stack(alloc, rid, status)
        }
    }

    // The run stands where its step leads, or is done with its steps, and its job isn't in flight any more.
    fn finish_step(
        &mut self,
        alloc: Global,
        session: &Session,
        run: &Run,
        end: StepEnd,
    ) -> Result<(), AllocError>
        requires { IsSome (run_of self.old.runs.runs run.now.rid) }
        ensures { OnOk result (Becomes (λ state. (settled session.now run.now (effect_of end state)).state) self.old self.new) }
    {
        self.land(run.rid);
        let next = status_then(end.status, run.pos, run_steps(session, run).len());
        self.settle(alloc, run.rid, next)
    }

    // The position of a run rises; this is the run then.
    fn move_on(&mut self, rid: u64) -> Run
        requires numbered { AreNumbered self.old.runs.runs }
        requires run { (found : Run) × (run_of self.old.runs.runs rid ≡ Some found) × (found.pos + 1 < 2 ^ 32) }
        ensures change { Becomes (with_run moved_on rid) self.old self.new }
        ensures run { run_of self.new.runs.runs rid ≡ Some result }
    {
        let Some(run) = self.runs.get(rid) else {
            unreachable!();
        };
        let moved = moved_on(*run);
        self.runs
            .set_fields(rid, moved.pos, moved.terminate, moved.doomed);
        moved
    }

    // The clock rises, what arrives is taken, and then the position of a run rises; this is the run then.
    fn rise(&mut self, alloc: Global, session: &Session, rid: u64) -> Result<Run, AllocError>
        requires session { IsTrue (is_session session.now) }
        requires pipelines { self.old.runs.pipelines ≡ length session.now.pipelines }
        requires taken { self.old.taken ≤ length session.now.arrivals }
        requires numbered { AreNumbered self.old.runs.runs }
        requires clock { self.old.clock + 1 < 2 ^ 64 }
        requires run { (datasets : List Dataset) × CanMoveOn rid (at_clock (self.old.clock + 1) (state_of session.now.arrivals datasets self.old)) }
        ensures state { OnOk result ((datasets : List Dataset) →
            state_of session.now.arrivals datasets self.new ≡ after_clock rid (state_of session.now.arrivals datasets self.old)) }
        ensures run { IfOk result (λ run. run_of self.new.runs.runs rid ≡ Some run) }
        ensures numbered { OnOk result (AreNumbered self.new.runs.runs) }
        ensures taken { OnOk result (self.new.taken ≤ length session.now.arrivals) }
        ensures pipelines { OnOk result (self.new.runs.pipelines ≡ self.old.runs.pipelines) }
    {
        let clock = self.clock + 1;
        self.advance(alloc, session.arrivals.items(), clock)?;
        Ok(self.move_on(rid))
    }

    /// Reports a step of a run: the clock rises, what arrives is taken, the run's position rises, and then the step has its
    /// effect, unless the run is doomed. Err is want of memory; board and datasets may be between then.
    pub fn report_step(
        &mut self,
        alloc: Global,
        datasets: &mut Datasets,
        session: &Session,
        rid: u64,
        pos: u32,
        ran: Option<&KernelResult>,
    ) -> Result<StepWord, AllocError>
        requires session { IsTrue (is_session session.now) }
        requires pipelines { self.old.runs.pipelines ≡ length session.now.pipelines }
        requires taken { self.old.taken ≤ length session.now.arrivals }
        requires numbered { AreNumbered self.old.runs.runs }
        requires clock { self.old.clock + 1 < 2 ^ 64 }
        requires run { CanMoveOn rid (at_clock (self.old.clock + 1) (state_of session.now.arrivals datasets.old self.old)) }
        ensures state { OnOk result (state_of session.now.arrivals datasets.new self.new
            ≡ (step_effect session.now rid pos (option_copied ran.entry) (state_of session.now.arrivals datasets.old self.old)).state) }
        ensures word { IfOk result (λ word.
            word ≡ (step_effect session.now rid pos (option_copied ran.entry) (state_of session.now.arrivals datasets.old self.old)).word) }
        ensures taken { OnOk result (self.new.taken ≤ length session.now.arrivals) }
        ensures pipelines { OnOk result (self.new.runs.pipelines ≡ self.old.runs.pipelines) }
    {
        let run = self.rise(alloc, session, rid)?;
        let end = self.run_step(alloc, datasets, session, &run, pos, ran)?;
        self.finish_step(alloc, session, &run, end)?;
        Ok(end.word)
    }
}
