// How the workers of a crew end.

ghost use Rattle.std.specs.Prelude.{◌≡◌, ◌++◌, ◌<◌, IfOk, IsTrue, length, map};
ghost use Rattle.exp_model.specs.Sessions.{is_session};
ghost use Rattle.sched_core.specs.Scheds.{new_sched};
ghost use Rattle.lab_workers.specs.Settings.{new_cores};
ghost use Rattle.lab_desks.specs.Columns.{HasRoom};
ghost use Rattle.lab_crew.specs.Crews.{HaveEnded};

use crate::member::Member;
use crate::preparing::{Prepared, prepare};
use crate::threads::work_together;
use exp_model::Session;
use lab_kits::{Gate, Kit};
use lab_workers::WorkEnd;
use rtio_core::Core;
use sched_core::Sched;
use std::alloc::{AllocError, Global};
use std::sync::Wait;
use std::thread::Threads;

/// Has so many workers do all that a session asks for, as `run_crew` does, and tells how each ended, that of the greatest number
/// first. So it tells what the others made of it where memory ran out for one. The only error is want of memory before they begin.
pub fn ends_of_crew<R: Threads + Wait + Sync, G: Gate + Sync>(
    rt: &R,
    alloc: Global,
    session: &Session,
    gate: &G,
    sched: Sched<Kit>,
    cores: Vec<Core>,
    workers: u32,
) -> Result<Vec<Option<WorkEnd>>, AllocError>
    requires session { IsTrue (is_session session.now) }
    requires workers { 0 < workers }
    requires sched { sched ≡ new_sched session.now }
    requires cores { cores.items ≡ new_cores session.now }
    // Each has ended: since every run had, since the worker that is named had halted the scheduler, or for want of memory, and then the
    // scheduler is halted.
    ensures { IfOk result (λ ends. HaveEnded session.now workers ends.items) }
{
    let Prepared {
        desks,
        crew,
        room: _,
    } = prepare(alloc, session, sched, cores, workers)?;
    let mut ends = Vec::with_capacity(alloc, crew.len())?;
    let crew = work_together(rt, alloc, &desks, gate, crew);
    put_ends(crew, &mut ends);
    Ok(ends)
}

// Puts how each member ended, in order.
fn put_ends(crew: Vec<Member>, ends: &mut Vec<Option<WorkEnd>>)
    requires { HasRoom (length crew.items) ends.old }
    ensures { ends.new.items ≡ map (λ member. member.end) crew.items }
{
    for member in crew {
        let Ok(()) = ends.push(member.end) else {
            unreachable!()
        };
    }
}
