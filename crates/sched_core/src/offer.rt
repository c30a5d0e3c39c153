// What goes with a job beside its kit.

ghost use Rattle.std.specs.Prelude.{◌≡◌, ◌<◌, Some, length, IfOk};
ghost use Rattle.exp_runs.specs.declared.run.Run.{Run};
ghost use Rattle.exp_runs.specs.Keys.{run_of};
ghost use Rattle.sched_state.specs.Lawful.{found_step};
ghost use Rattle.sched_core.specs.Scheds.{source_of_run};

use exp_model::{HostStep, Session};
use sched_state::Board;
use std::alloc::{AllocError, Global};

/// The number of the source of the run's experiment.
pub fn source_of(session: &Session, board: &Board, rid: u64) -> u32
    ensures { (run : Run) → run_of board.now.runs.runs rid ≡ Some run → run.experiment < length session.now.experiments → source_of_run session.now run ≡ Some result }
{
    let Some(run) = board.runs.get(rid) else {
        return 0;
    };
    match session.experiments.items().get(run.experiment as usize) {
        Some(experiment) => experiment.source,
        None => 0,
    }
}

/// The pipeline of the run.
pub fn pipeline_of(board: &Board, rid: u64) -> u32
    ensures { (run : Run) → run_of board.now.runs.runs rid ≡ Some run → run.pipeline ≡ result }
{
    match board.runs.get(rid) {
        Some(run) => run.pipeline,
        None => 0,
    }
}

/// The step of the run at a position; None where there is none. Err is want of memory.
pub fn step_of(
    alloc: Global,
    session: &Session,
    board: &Board,
    rid: u64,
    pos: u32,
) -> Result<Option<HostStep>, AllocError>
    ensures { IfOk result (λ step. step ≡ found_step session.now pos (run_of board.now.runs.runs rid)) }
{
    let Some(run) = board.runs.get(rid) else {
        return Ok(None);
    };
    let Some(experiment) = session.experiments.items().get(run.experiment as usize) else {
        return Ok(None);
    };
    match experiment.run.items().get(pos as usize) {
        Some(step) => Ok(Some(step.copy(alloc)?)),
        None => Ok(None),
    }
}
