//! Has the workers of sessions do all that these ask for, and says how each worker ended, from number 0 on. So it shows what the
//! others make of it where memory runs out for one: `bench/refused_memory.py` refuses each allocation in turn.
#![tactic(auto)]

ghost use Rattle.std.specs.Prelude.{IsTrue};
ghost use Rattle.exp_model.specs.Sessions.{is_session};

use exp_json::read_session;
use exp_model::Session;
use lab_crew::{WorkEnd, ends_of_crew};
use lab_kits::OpenGate;
use lab_program::open_cores;
use sched_core::Sched;
use std::alloc::{AllocError, Global};
use std::sync::Wait;
use std::thread::Threads;
use std::{env, fs, io};

fn main(rt: HostRuntime) -> io::Result<()> {
    for path in env::args(&rt)?.skip(1) {
        let bytes = fs::read(&rt, path.as_str())?;
        print!(rt; "{path}:")?;
        match read_session(rt.alloc(), bytes.as_slice()) {
            Ok(session) => match ends_of(&rt, rt.alloc(), &session) {
                Ok(ends) => say(&rt, ends.as_slice())?,
                Err(_) => print!(rt; " no crew")?,
            },
            Err(_) => print!(rt; " no session")?,
        }
        print!(rt; "\n")?;
    }
    Ok(())
}

// How each worker of a session ended, the last one first. Fails only for want of memory before they begin.
fn ends_of<R: Threads + Wait + Sync>(
    rt: &R,
    alloc: Global,
    session: &Session,
) -> Result<Vec<Option<WorkEnd>>, AllocError>
    requires session { IsTrue (is_session session.now) }
{
    let sched = Sched::new(alloc, session)?;
    let cores = open_cores(alloc, session)?;
    let workers = session.workers.max(1);
    ends_of_crew(rt, alloc, session, &OpenGate, sched, cores, workers)
}

// Says how each ended, the last one first.
fn say(rt: &HostRuntime, ends: &[Option<WorkEnd>]) -> io::Result<()> {
    for end in ends.iter().rev() {
        match end {
            Some(WorkEnd::Finished) => print!(rt; " finished")?,
            Some(WorkEnd::Stopped { by }) => print!(rt; " stopped_by_{by}")?,
            Some(WorkEnd::Memory) => print!(rt; " memory")?,
            None => print!(rt; " never")?,
        }
    }
    Ok(())
}
