// The doing of one job, whoever has the cores.

ghost use Rattle.std.specs.Prelude.{◌≡◌, ◌<◌, length, slice_get, IfOk, IsTrue, OnErr, Some};
ghost use Rattle.exp_model.specs.Sessions.{is_session};
ghost use Rattle.stage_work.specs.declared.tasks.Task.TheVariants.{Step};
ghost use Rattle.stage_work.specs.Doing.{HasDone, HasRun, HasTask, IsPreparation, LeavesPlaces, LeavesStart, MayDo};
ghost use Rattle.stage_work.specs.Starting.{MayStart};

use crate::runner::Runner;
use crate::starting::start_for;
use crate::tasks::{Report, StepTask, Task};
use exp_model::Session;
use exp_runs::Run;
use lab_kits::{Gate, Kit, Place, PrepareEnd, prepare};
use rtio_core::StartOf;
use sched_core::KernelResult;
use std::alloc::{AllocError, Global};

/// Does a job, which the worker of this number has taken, on the places of the cores, and gives its report: a run is prepared, or its
/// source refused; a kernel's step runs on the core of its pipeline, and the effect of any other is the scheduler's. The worker passes
/// the gate directly before it compiles, and directly after a kernel has ended. The only error is want of memory.
pub fn do_task<R: Runner, G: Gate>(
    runner: &R,
    alloc: Global,
    places: &mut [R::Place],
    session: &Session,
    gate: &G,
    who: u32,
    task: Task,
) -> Result<Report, AllocError>
    requires session { IsTrue (is_session session.now) }
    requires is { HasTask session.now task }
    requires may { MayDo (R.may_run runner.now) task places.old }
    ensures count { length places.new ≡ length places.old }
    // The report is of the job, and right wherever the job is one. A step that has a session was run on the place of its pipeline.
    ensures done { IfOk result (λ report. HasDone (R.has_run runner.now) session.now task report places.old places.new) }
    // Without memory the places are as they were, but a step that has a session may have been cut short.
    ensures left { OnErr result (LeavesPlaces (R.has_run runner.now) (R.is_cut runner.now) task places.old places.new) }
{
    match task {
        Task::Prepare { rid, run } => prepare_run(alloc, session, gate, who, rid, run),
        Task::Step(step) => do_step(runner, alloc, places, session, gate, who, step),
        Task::Analyze { rid } => Ok(Report::Analyzed { rid }),
    }
}

// Prepares a run: it has a kit, or its source is refused.
fn prepare_run<G: Gate>(
    alloc: Global,
    session: &Session,
    gate: &G,
    who: u32,
    rid: u64,
    run: Run,
) -> Result<Report, AllocError>
    requires { IsTrue (is_session session.now) }
    ensures { IfOk result (λ report. IsPreparation session.now rid run report) }
{
    match prepare(alloc, session, &run, gate, who) {
        Ok(kit) => Ok(Report::Prepared { rid, kit }),
        Err(PrepareEnd::Refused) => Ok(Report::Refused { rid }),
        Err(PrepareEnd::Memory) => Err(AllocError),
    }
}

// Does a step of a run.
fn do_step<R: Runner, G: Gate>(
    runner: &R,
    alloc: Global,
    places: &mut [R::Place],
    session: &Session,
    gate: &G,
    who: u32,
    task: StepTask,
) -> Result<Report, AllocError>
    requires is { HasTask session.now (Step task) }
    requires may { MayDo (R.may_run runner.now) (Step task) places.old }
    ensures count { length places.new ≡ length places.old }
    ensures done { IfOk result (λ report. HasDone (R.has_run runner.now) session.now (Step task) report places.old places.new) }
    ensures left { OnErr result (LeavesPlaces (R.has_run runner.now) (R.is_cut runner.now) (Step task) places.old places.new) }
{
    let StepTask {
        rid,
        pos,
        pipeline,
        step,
        kit,
    } = task;
    let _does = kit.compiled.code();
    let start = start_for(&kit, rid, pos, step);
    let ran = run_start(runner, alloc, places, gate, who, pipeline, &kit, start)?;
    Ok(Report::Stepped { rid, pos, kit, ran })
}

// Runs a step that has a session on the core of its pipeline; for any other nothing is done.
fn run_start<R: Runner, G: Gate>(
    runner: &R,
    alloc: Global,
    places: &mut [R::Place],
    gate: &G,
    who: u32,
    pipeline: u32,
    kit: &Kit,
    start: Option<StartOf>,
) -> Result<Option<KernelResult>, AllocError>
    requires there { pipeline < length places.old }
    requires may { (place : R.Place) → slice_get places.old pipeline ≡ Some place → R.may_run runner.now pipeline place }
    requires start { MayStart kit.now start }
    ensures count { length places.new ≡ length places.old }
    ensures ran { IfOk result (λ ran. HasRun (R.has_run runner.now) pipeline kit.now start ran places.old places.new) }
    ensures left { OnErr result (LeavesStart (R.has_run runner.now) (R.is_cut runner.now) pipeline kit.now start places.old places.new) }
{
    match start {
        Some(of) => {
            let rid = of.rid;
            let result = runner.run(alloc, &mut places[pipeline as usize], pipeline, kit, of)?;
            gate.at(who, Place::KernelEnded { rid });
            Ok(Some(result))
        }
        None => Ok(None),
    }
}
