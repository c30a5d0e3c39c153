// The runs, and the choices among them.

ghost use Rattle.std.specs.Prelude.{◌≡◌, ◌<◌, Ok, IfOk, OnOk, OnErr, IfErr, IsSome, None, option_copied, length, replicate, [], ◌==◌, if◌then◌else◌};
ghost use Rattle.exp_runs.specs.Keys.{best, can_prepare, can_run, can_analyze, is_higher, run_of, some_higher};
ghost use Rattle.exp_runs.specs.Inside.{places_in};
ghost use Rattle.exp_runs.specs.Queues.{wants};
ghost use Rattle.std.specs.List.{list_any};
ghost use Rattle.exp_runs.specs.Table.{no_runs, changed, with_status, with_fields, added, in_table};

use crate::queue::{Queue, Wanted, add_to, best_in};
use crate::{Run, Status};
use std::alloc::{AllocError, Global};
use std::marker::Model;

/// The runs of a laboratory, each with a number of its own.
#[derive(Debug, Drop)]
pub struct Runs {
    pipelines: u32,
    runs: Vec<Run>,
    queues: Vec<Queue>,
}

impl Model for Runs {
    ghost use Rattle.exp_runs.specs.Table.{RunTable};

    ghost Value = { RunTable };

    ghost use Rattle.exp_runs.specs.Inside.{table_of, AreRuns};

    ghost view = { table_of };

    ghost invariant = { AreRuns };
}

impl Runs {
    /// No runs yet, and this many pipelines.
    pub fn new(alloc: Global, pipelines: u32) -> Result<Runs, AllocError>
        ensures { IfOk result (λ runs. runs ≡ no_runs pipelines) }
    {
        let queues = empty_queues(alloc, pipelines)?;
        Ok(Runs {
            pipelines,
            runs: Vec::new(alloc),
            queues,
        })
    }

    /// Adds a run with a new number, in a pipeline that there is. Err is want of memory, and hands the run back.
    pub fn add(&mut self, alloc: Global, run: Run) -> Result<(), Run>
        requires new { run_of self.old.runs run.rid ≡ None }
        requires pipeline { run.pipeline < self.old.pipelines }
        ensures ok { OnOk result (self.new ≡ added self.old run) }
        ensures err { OnErr result (self.new ≡ self.old) }
        ensures back { IfErr result (λ back. back ≡ run) }
    {
        add_to(&mut self.runs, &mut self.queues[run.pipeline as usize], run)
    }

    /// Sets where a run stands, and nothing else. Err is want of memory; then nothing has changed.
    pub fn set_status(&mut self, alloc: Global, rid: u64, status: Status) -> Result<(), AllocError>
        requires { IsSome (run_of self.old.runs rid) }
        ensures ok { OnOk result (self.new ≡ in_table self.old (changed (with_status status) rid)) }
        ensures err { OnErr result (self.new ≡ self.old) }
    {
        change_status(&mut self.runs, rid, status);
        Ok(())
    }

    /// Sets a run's position and its two orders, and nothing else. It takes no memory.
    pub fn set_fields(&mut self, rid: u64, pos: u32, terminate: bool, doomed: bool)
        requires { IsSome (run_of self.old.runs rid) }
        ensures { self.new ≡ in_table self.old (changed (with_fields pos terminate doomed) rid) }
    {
        change_fields(&mut self.runs, rid, pos, terminate, doomed);
    }

    /// Whether a run of its pipeline is higher than this one at this clock: its priority is strictly greater, and it is due,
    /// is being prepared, or is prepared.
    pub fn higher_due(&self, rid: u64, clock: u64) -> bool
        requires { IsSome (run_of self.now.runs rid) }
        ensures { result ≡ some_higher self.now.runs rid clock }
    {
        match self.get(rid) {
            Some(run) => any_above(&self.runs, run, clock),
            None => false,
        }
    }

    /// The same runs; the only error is want of memory.
    pub fn copy(&self, alloc: Global) -> Result<Runs, AllocError>
        ensures { IfOk result (λ copy. copy ≡ self.now) }
    {
        let runs = Vec::from_slice(alloc, &self.runs)?;
        let queues = copied(alloc, &self.queues)?;
        Ok(Runs {
            pipelines: self.pipelines,
            runs,
            queues,
        })
    }

    /// How many runs there are.
    pub fn len(&self) -> u64
        ensures { result ≡ length self.now.runs }
    {
        self.runs.len() as u64
    }

    /// The runs in the order of adding.
    pub fn items(&self) -> &[Run]
        ensures { result.now ≡ self.now.runs }
    {
        &self.runs
    }

    /// The run with this number; None exactly where there is none.
    pub fn get(&self, rid: u64) -> Option<&Run>
        ensures { option_copied result ≡ run_of self.now.runs rid }
    {
        self.runs.iter().find(|run| run.rid == rid)
    }

    /// The run of this pipeline that is to be prepared next at this clock: of those that wait with a due date that is reached,
    /// the one of greatest key. None exactly where there is none.
    pub fn best_pending(&self, pipeline: u32, clock: u64) -> Option<u64>
        ensures { result ≡ best (can_prepare pipeline clock) self.now.runs }
    {
        self.best_of(pipeline, Wanted::ToPrepare { clock })
    }

    /// The prepared run of this pipeline of greatest key; None exactly where there is none.
    pub fn best_prepared(&self, pipeline: u32) -> Option<u64>
        ensures { result ≡ best (can_run pipeline) self.now.runs }
    {
        self.best_of(pipeline, Wanted::ToRun)
    }

    /// The run of this pipeline of greatest key among those whose steps are done; None exactly where there is none.
    pub fn best_done(&self, pipeline: u32) -> Option<u64>
        ensures { result ≡ best (can_analyze pipeline) self.now.runs }
    {
        self.best_of(pipeline, Wanted::ToAnalyze)
    }

    // The best run that the pipeline looks for.
    fn best_of(&self, pipeline: u32, wanted: Wanted) -> Option<u64>
        ensures { result ≡ best (wants pipeline wanted) self.now.runs }
    {
        match self.queues.get(pipeline as usize) {
            Some(queue) => best_in(&self.runs, queue, pipeline, wanted),
            None => None,
        }
    }
}

// Queues without any run.
fn empty_queues(alloc: Global, count: u32) -> Result<Vec<Queue>, AllocError>
    ensures count { IfOk result (λ queues. length queues.items ≡ count) }
    ensures none { IfOk result (λ queues. places_in queues.items ≡ replicate count []) }
{
    let mut queues = Vec::new(alloc);
    for _made in 0..count {
        queues.push(Queue {
            places: Vec::new(alloc),
        })?;
    }
    Ok(queues)
}

fn run_with_status(run: Run, rid: u64, status: Status) -> Run
    ensures { result ≡ (if run.rid == rid then with_status status run else run) }
{
    if run.rid == rid {
        Run { status, ..run }
    } else {
        run
    }
}

fn change_status(runs: &mut [Run], rid: u64, status: Status)
    ensures { runs.new ≡ changed (with_status status) rid runs.old }
{
    for run in runs.iter_mut() {
        *run = run_with_status(*run, rid, status);
    }
}

fn run_with_fields(run: Run, rid: u64, pos: u32, terminate: bool, doomed: bool) -> Run
    ensures { result ≡ (if run.rid == rid then with_fields pos terminate doomed run else run) }
{
    if run.rid == rid {
        Run {
            pos,
            terminate,
            doomed,
            ..run
        }
    } else {
        run
    }
}

fn change_fields(runs: &mut [Run], rid: u64, pos: u32, terminate: bool, doomed: bool)
    ensures { runs.new ≡ changed (with_fields pos terminate doomed) rid runs.old }
{
    for run in runs.iter_mut() {
        *run = run_with_fields(*run, rid, pos, terminate, doomed);
    }
}

// Whether the other run is higher than this one.
fn is_above(run: &Run, other: &Run, clock: u64) -> bool
    ensures { result ≡ is_higher clock run.now other.now }
{
    let counts = match other.status {
        Status::Pending => other.due <= clock,
        Status::Preparing | Status::Prepared => true,
        _ => false,
    };
    other.pipeline == run.pipeline && run.priority < other.priority && counts
}

fn any_above(runs: &[Run], run: &Run, clock: u64) -> bool
    ensures { result ≡ list_any (is_higher clock run.now) runs.now }
{
    runs.iter().any(|other| is_above(run, other, clock))
}

fn copied(alloc: Global, queues: &[Queue]) -> Result<Vec<Queue>, AllocError>
    ensures count { IfOk result (λ copies. length copies.items ≡ length queues.now) }
    ensures same { IfOk result (λ copies. places_in copies.items ≡ places_in queues.now) }
{
    let mut copies = Vec::new(alloc);
    for queue in queues {
        let places = Vec::from_slice(alloc, &queue.places)?;
        copies.push(Queue { places })?;
    }
    Ok(copies)
}
