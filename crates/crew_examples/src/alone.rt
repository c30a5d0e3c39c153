// One worker alone: where it passes the gate, and how many instructions its kernels take.

ghost use Rattle.std.specs.Prelude.{IsTrue};
ghost use Rattle.exp_model.specs.Sessions.{is_session};

use crate::sessions::session_of;
use exp_model::Session;
use lab_kits::{Gate, Kit, Place};
use lab_program::open_cores;
use sched_core::{Sched, SchedAct};
use stage_work::serve;
use std::alloc::{AllocError, Global};
use std::sync::atomic::{AtomicU64, Ordering};
use std::test::Fail;

// One pipeline, and two runs of a kernel.
const TWO_RUNS: &str =
    r#"{"pipelines":[{}],"sources":["def main():\n    delay_mu(1000)\n    ttl0.pulse_mu(100)\n"],
"experiments":[{"source":0,"prepare":[],"run":[{"kernel":"main","args":[]}],"analyze":[]}],
"arrivals":[{"at":0,"submit":{"experiment":0,"pipeline":0}},{"at":0,"submit":{"experiment":0,"pipeline":0}}]}"#;

// Keeps the places that worker 0 passed, a digit each: 1 and 3 where it compiles for the runs 0 and 1, 2 and 4 where a kernel of
// theirs has ended, 9 for any other.
#[derive(Drop)]
struct Passed {
    places: AtomicU64,
}

impl Gate for Passed {
    fn at(&self, worker: u32, place: Place) {
        let digit = match place {
            Place::Compiling { rid: 0 } if worker == 0 => 1,
            Place::KernelEnded { rid: 0 } if worker == 0 => 2,
            Place::Compiling { rid: 1 } if worker == 0 => 3,
            Place::KernelEnded { rid: 1 } if worker == 0 => 4,
            _ => 9,
        };
        let before = self.places.load(Ordering::SeqCst);
        let places = before.wrapping_mul(10).wrapping_add(digit);
        self.places.store(places, Ordering::SeqCst);
    }
}

// The scheduler behind one worker that has done all that there was to do.
fn served(alloc: Global, session: &Session, gate: &Passed) -> Result<Sched<Kit>, AllocError>
    requires { IsTrue (is_session session.now) }
{
    let mut sched = Sched::new(alloc, session)?;
    let mut cores = open_cores(alloc, session)?;
    serve(alloc, &mut sched, &mut cores, session, gate)?;
    Ok(sched)
}

// The instructions that an act tells of a kernel.
fn steps_of(act: &SchedAct) -> Option<u64> {
    match act {
        SchedAct::Stepped {
            result: Some(result),
            ..
        } => Some(result.steps),
        _ => None,
    }
}

// The instructions that the kernels took, in the order of their reports.
fn told(alloc: Global, sched: &Sched<Kit>) -> Result<Vec<u64>, AllocError> {
    let mut told = Vec::new(alloc);
    for entry in sched.history() {
        if let Some(steps) = steps_of(&entry.act) {
            told.push(steps)?;
        }
    }
    Ok(told)
}

// What is told of the kernels once one worker has done all.
fn told_of(alloc: Global, session: &Session, gate: &Passed) -> Result<Vec<u64>, AllocError>
    requires { IsTrue (is_session session.now) }
{
    let sched = served(alloc, session, gate)?;
    told(alloc, &sched)
}

// Alone it takes nine: a row of `program_rows` has them, `the_line_code_tells_the_image_and_the_instructions`.
#[test]
fn a_kernel_takes_the_instructions_that_it_takes_alone(rt: HostRuntime) -> Result<(), Fail> {
    let alloc = rt.alloc();
    let gate = Passed {
        places: AtomicU64::new(0),
    };
    let session = session_of(alloc, TWO_RUNS)?;
    let told = told_of(alloc, &session, &gate)?;
    assert_eq!(rt; told.as_slice(), [9, 9].as_slice());
    assert_eq!(rt; gate.places.load(Ordering::SeqCst), 1234);
    Ok(())
}
