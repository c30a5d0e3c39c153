// A session of a laboratory, from its beginning to its report.

ghost use Rattle.std.specs.Prelude.{◌≡◌, map, IfOk, IsTrue, string_bytes};
ghost use Rattle.exp_model.specs.Sessions.{is_session};
ghost use Rattle.sched_core.specs.Scheds.{new_sched};
ghost use Rattle.stage_work.specs.Settings.{new_cores};
ghost use Rattle.lab_program.specs.Laboratories.{IsToldRun, IsWorkedOff, ReportsRun};

use crate::opening::open_cores;
use crate::telling::tell_cores;
use exp_model::Session;
use lab_crew::run_crew;
use lab_report::report_of_lines;
use rtio_core::Core;
use rtio_headline::what_is_put_out_was_submitted;
use sched_core::Sched;
use stage_work::{Gate, Kit, cores_are_asked_at_top, serve};
use std::alloc::{AllocError, Global};
use std::sync::Wait;
use std::thread::Threads;

/// Has the workers of a session do what it asks for until every run has ended, lets the cores go on until they are stopped, and gives
/// the report. Of several workers each runs in a thread of its own, where one can be made, and as many threads write the lines of the
/// cores. The only error is want of memory.
pub fn run_laboratory<R: Threads + Wait + Sync, G: Gate + Sync>(
    rt: &R,
    alloc: Global,
    session: &Session,
    gate: &G,
) -> Result<Vec<u8>, AllocError>
    requires { IsTrue (is_session session.now) }
    ensures { IfOk result (λ text. ReportsRun session.now text.items) }
{
    let sched = Sched::new(alloc, session)?;
    let cores = open_cores(alloc, session)?;
    let (sched, lines) = finish(rt, alloc, session, gate, sched, cores)?;
    report_of_lines(alloc, &sched, &lines)
}

// Has the workers go through with a new laboratory, and takes the lines of its cores, which went on until they were stopped.
fn finish<R: Threads + Wait + Sync, G: Gate + Sync>(
    rt: &R,
    alloc: Global,
    session: &Session,
    gate: &G,
    sched: Sched<Kit>,
    cores: Vec<Core>,
) -> Result<(Sched<Kit>, Vec<String>), AllocError>
    requires session { IsTrue (is_session session.now) }
    requires sched { sched ≡ new_sched session.now }
    requires cores { cores.items ≡ new_cores session.now }
    ensures { IfOk result (λ left. IsToldRun session.now left.0 (map string_bytes left.1.items)) }
{
    what_is_put_out_was_submitted();
    cores_are_asked_at_top();
    let (sched, cores) = work_off(rt, alloc, session, gate, sched, cores)?;
    let _known = sched.history();
    let lines = tell_cores(rt, alloc, cores, session.workers)?;
    Ok((sched, lines))
}

// Has one worker serve a new laboratory alone, or several at once.
fn work_off<R: Threads + Wait + Sync, G: Gate + Sync>(
    rt: &R,
    alloc: Global,
    session: &Session,
    gate: &G,
    sched: Sched<Kit>,
    cores: Vec<Core>,
) -> Result<(Sched<Kit>, Vec<Core>), AllocError>
    requires session { IsTrue (is_session session.now) }
    requires sched { sched ≡ new_sched session.now }
    requires cores { cores.items ≡ new_cores session.now }
    ensures { IfOk result (λ left. IsWorkedOff session.now left.0 left.1.items) }
{
    if session.workers > 1 {
        return run_crew(rt, alloc, session, gate, sched, cores, session.workers);
    }
    let mut sched = sched;
    let mut cores = cores;
    serve(alloc, &mut sched, &mut cores, session, gate)?;
    Ok((sched, cores))
}
