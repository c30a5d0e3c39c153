// A laboratory of several workers.

ghost use Rattle.std.specs.Prelude.{◌≡◌, ◌<◌, IfOk, IsTrue};
ghost use Rattle.exp_model.specs.Sessions.{is_session};
ghost use Rattle.sched_core.specs.Scheds.{new_sched};
ghost use Rattle.lab_workers.specs.Finished.{IsFinished};
ghost use Rattle.lab_workers.specs.Settings.{new_cores};

use crate::closing::close_desks;
use crate::preparing::{Prepared, prepare};
use crate::threads::{have_finished, work_together};
use exp_model::Session;
use lab_kits::{Gate, Kit};
use rtio_core::Core;
use sched_core::Sched;
use std::alloc::{AllocError, Global};
use std::sync::Wait;
use std::thread::Threads;

/// Has so many workers, each in a thread of its own, do all that a session asks for. The scheduler is new and of this session, and the
/// cores are new, one for each pipeline with its settings; they come back when every worker has ended. The only error is want of
/// memory.
pub fn run_crew<R: Threads + Wait + Sync, G: Gate + Sync>(
    rt: &R,
    alloc: Global,
    session: &Session,
    gate: &G,
    sched: Sched<Kit>,
    cores: Vec<Core>,
    workers: u32,
) -> Result<(Sched<Kit>, Vec<Core>), AllocError>
    requires session { IsTrue (is_session session.now) }
    requires workers { 0 < workers }
    requires sched { sched ≡ new_sched session.now }
    requires cores { cores.items ≡ new_cores session.now }
    // Every run has ended, and nothing is in flight. Of each chair and each pipeline the sessions on the core and the reports of the
    // kernel steps are the same steps, each once and in one order; each session is of its step's source, function and arguments, and what
    // that means; each report has the session's result. Each source was judged rightly.
    ensures { IfOk result (λ left. IsFinished session.now workers left.0 left.1.items) }
{
    let Prepared { desks, crew, room } = prepare(alloc, session, sched, cores, workers)?;
    let crew = work_together(rt, alloc, &desks, gate, crew);
    if !have_finished(crew.as_slice()) {
        // Memory ran out for one of them, and the scheduler is halted.
        return Err(AllocError);
    }
    Ok(close_desks(desks, crew, room))
}
