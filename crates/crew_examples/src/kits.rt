// The preparation of a run: the gate that it passes, and what its kit tells.

ghost use Rattle.std.specs.Prelude.{IsTrue};
ghost use Rattle.exp_model.specs.Sessions.{is_session};

use crate::sessions::session_of;
use exp_model::Session;
use exp_runs::{Run, Status};
use lab_kits::{Gate, Kit, OpenGate, Place, PrepareEnd, prepare};
use sched_core::Payload;
use std::alloc::Global;
use std::cell::Cell;
use std::test::Fail;

// Three functions, 0 and 2 without parameters, 1 with one of each type; and a text that is no kernel. An experiment has each of them.
const SOURCES: &str =
    r#"{"pipelines":[{}],"sources":["","def main():\n    pass\ndef f(a: int32, b: int64, c: bool):\n    pass\ndef g() -> int64:\n    return 1\n","pass"],
"experiments":[{"source":0,"prepare":[],"run":[{"pause":true}],"analyze":[]},
{"source":1,"prepare":[{"set":"a","value":1}],"run":[{"kernel":"main","args":[]},{"kernel":"f","args":[1,2,1]}],"analyze":[]},
{"source":2,"prepare":[{"set":"a","value":1}],"run":[{"kernel":"main","args":[]}],"analyze":[]}],"arrivals":[]}"#;

fn run_of(experiment: u32) -> Run {
    Run {
        rid: 7,
        pipeline: 0,
        priority: 0,
        due: 0,
        flush: false,
        experiment,
        pos: 0,
        terminate: false,
        doomed: false,
        status: Status::Preparing,
    }
}

// A gate that keeps who passed it last and where, and how often it was passed.
#[derive(Drop)]
struct Kept {
    last: Cell<Option<(u32, Place)>>,
    count: Cell<u32>,
}

impl Gate for Kept {
    fn at(&self, worker: u32, place: Place) {
        self.last.set(Some((worker, place)));
        self.count.set(self.count.get().saturating_add(1));
    }
}

// What worker 3 makes of an experiment: whether its source is accepted, and whether the gate was passed once, for its run.
fn judged(alloc: Global, session: &Session, experiment: u32) -> (bool, bool)
    requires { IsTrue (is_session session.now) }
{
    let gate = Kept {
        last: Cell::new(None),
        count: Cell::new(0),
    };
    let is_accepted = prepare(alloc, session, &run_of(experiment), &gate, 3).is_ok();
    let is_passed = gate.last.get() == Some((3, Place::Compiling { rid: 7 }));
    (is_accepted, is_passed && gate.count.get() == 1)
}

#[test]
fn the_gate_is_passed_once_before_the_text_is_compiled(rt: HostRuntime) -> Result<(), Fail> {
    let session = session_of(rt.alloc(), SOURCES)?;
    assert_eq!(rt; judged(rt.alloc(), &session, 1), (true, true));
    assert_eq!(rt; judged(rt.alloc(), &session, 2), (false, true));
    Ok(())
}

// Whether the kit of the three functions tells its source, and of each function its number.
fn finds_three(alloc: Global, session: &Session) -> Result<bool, PrepareEnd>
    requires { IsTrue (is_session session.now) }
{
    let kit = prepare(alloc, session, &run_of(1), &OpenGate, 0)?;
    Ok(kit.source() == 1 && has_numbers(&kit) && has_three(&kit))
}

fn has_numbers(kit: &Kit) -> bool {
    kit.function_of(b"main") == Some(0)
        && kit.function_of(b"f") == Some(1)
        && kit.function_of(b"g") == Some(2)
        && kit.function_of(b"h").is_none()
        && kit.function_of(b"").is_none()
}

fn has_three(kit: &Kit) -> bool {
    kit.compiled.code().code().functions.items().len() == 3
}

#[test]
fn a_kit_finds_its_functions(rt: HostRuntime) -> Result<(), Fail> {
    let session = session_of(rt.alloc(), SOURCES)?;
    assert!(rt; finds_three(rt.alloc(), &session)?);
    Ok(())
}
