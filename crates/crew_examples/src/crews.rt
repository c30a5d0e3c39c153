// Sessions of several workers.

use lab_io::{Page, Tape};
use lab_kits::{Gate, OpenGate, Place};
use lab_program::lab_top;
use std::alloc::{AllocError, Global};
use std::process::Abort;
use std::sync::Wait;
use std::sync::atomic::{AtomicBool, AtomicU64, Ordering};
use std::test::Fail;
use std::thread::{self, Threads};

/// Calls the program on a session, asserts that it answers 0 and writes nothing to err, and gives what out holds.
pub fn report_of<R: Abort + Threads + Wait + Sync, G: Gate + Sync>(
    rt: &R,
    alloc: Global,
    json: &str,
    gate: &G,
) -> Result<String, Fail> {
    let mut source = Tape::new(json.as_bytes().to_vec(alloc)?, 4096, Vec::new(alloc));
    let mut out = Page::new(alloc, 1000, 16, Vec::new(alloc))?;
    let mut err = Page::new(alloc, 1000, 16, Vec::new(alloc))?;
    let status = lab_top(rt, alloc, &[], &mut source, &mut out, &mut err, gate);
    assert_eq!(rt; status, 0, "{json}");
    assert_eq!(rt; err.held().len(), 0, "{json}");
    Ok(String::from_str(alloc, str::from_utf8(out.held())?)?)
}

// ---- two at once

// Two workers, two pipelines, and a run in each.
const TWO: &str =
    r#"{"workers":2,"pipelines":[{},{}],"sources":["def main():\n    delay_mu(1000)\n    ttl0.pulse_mu(100)\n"],
"experiments":[{"source":0,"prepare":[],"run":[{"kernel":"main","args":[]}],"analyze":[]}],
"arrivals":[{"at":0,"submit":{"experiment":0,"pipeline":0}},{"at":0,"submit":{"experiment":0,"pipeline":1}}]}"#;

// Behind the lines of the steps, whose order isn't settled.
const END_OF_TWO: &str = "run 0 done\nrun 1 done
core 0\nout 1000 0 0 1\nout 1100 0 0 0\ncursor 1100\ncounter 1096
core 1\nout 1000 0 0 1\nout 1100 0 0 0\ncursor 1100\ncounter 1096\nend\n";

/// How long a worker is kept at most, in turns.
pub const MOST_TURNS: u32 = 50_000_000;

/// In place of a number of a worker or of a run.
pub const NOBODY: u64 = u64::MAX;

// Keeps the worker that is about to compile for run 0 until another has ended a kernel of run 1, and tells whether they met.
#[derive(Drop)]
struct Meeting {
    ended_by: AtomicU64,
    met: AtomicBool,
}

impl Gate for Meeting {
    fn at(&self, worker: u32, place: Place) {
        match place {
            Place::Compiling { rid: 0 } => self.await_other(u64::from(worker)),
            Place::KernelEnded { rid: 1 } => {
                self.ended_by.store(u64::from(worker), Ordering::SeqCst)
            }
            _ => {}
        }
    }
}

impl Meeting {
    fn await_other(&self, worker: u64) {
        for _ in 0..MOST_TURNS {
            let by = self.ended_by.load(Ordering::SeqCst);
            if by != NOBODY && by != worker {
                self.met.store(true, Ordering::SeqCst);
                return;
            }
            thread::yield_now();
        }
    }
}

#[test]
fn one_compiles_while_another_runs_a_kernel(rt: HostRuntime) -> Result<(), Fail> {
    let alloc = rt.alloc();
    let gate = Meeting {
        ended_by: AtomicU64::new(NOBODY),
        met: AtomicBool::new(false),
    };
    let report = report_of(&rt, alloc, TWO, &gate)?;
    assert!(rt; report.ends_with(END_OF_TWO), "{report}");
    assert!(rt; gate.met.load(Ordering::SeqCst));
    Ok(())
}

// ---- all at once

// Four workers, four pipelines, and a run in each.
const FOUR: &str =
    r#"{"workers":4,"pipelines":[{},{},{},{}],"sources":["def main():\n    delay_mu(1000)\n    ttl0.pulse_mu(100)\n"],
"experiments":[{"source":0,"prepare":[],"run":[{"kernel":"main","args":[]}],"analyze":[]}],
"arrivals":[{"at":0,"submit":{"experiment":0,"pipeline":0}},{"at":0,"submit":{"experiment":0,"pipeline":1}},
{"at":0,"submit":{"experiment":0,"pipeline":2}},{"at":0,"submit":{"experiment":0,"pipeline":3}}]}"#;

const END_OF_FOUR: &str = "run 0 done\nrun 1 done\nrun 2 done\nrun 3 done
core 0\nout 1000 0 0 1\nout 1100 0 0 0\ncursor 1100\ncounter 1096
core 1\nout 1000 0 0 1\nout 1100 0 0 0\ncursor 1100\ncounter 1096
core 2\nout 1000 0 0 1\nout 1100 0 0 0\ncursor 1100\ncounter 1096
core 3\nout 1000 0 0 1\nout 1100 0 0 0\ncursor 1100\ncounter 1096\nend\n";

// Keeps each worker that is about to compile until four are, and each whose kernel has ended until four have; tells whether they
// all were at once.
#[derive(Drop)]
struct Gathering {
    compiling: AtomicU64,
    ended: AtomicU64,
    compiled_at_once: AtomicBool,
    ended_at_once: AtomicBool,
}

impl Gate for Gathering {
    fn at(&self, _worker: u32, place: Place) {
        match place {
            Place::Compiling { .. } => await_all(&self.compiling, &self.compiled_at_once),
            Place::KernelEnded { .. } => await_all(&self.ended, &self.ended_at_once),
        }
    }
}

// Counts a worker, waits until four are counted, and tells so.
fn await_all(count: &AtomicU64, are_at_once: &AtomicBool) {
    count.fetch_add(1, Ordering::SeqCst);
    for _ in 0..MOST_TURNS {
        if count.load(Ordering::SeqCst) == 4 {
            are_at_once.store(true, Ordering::SeqCst);
            return;
        }
        thread::yield_now();
    }
}

fn gathered<R: Abort + Threads + Wait + Sync>(rt: &R, alloc: Global) -> Result<Gathering, Fail> {
    let gate = Gathering {
        compiling: AtomicU64::new(0),
        ended: AtomicU64::new(0),
        compiled_at_once: AtomicBool::new(false),
        ended_at_once: AtomicBool::new(false),
    };
    let report = report_of(rt, alloc, FOUR, &gate)?;
    assert!(rt; report.ends_with(END_OF_FOUR), "{report}");
    Ok(gate)
}

#[test]
fn four_compile_at_once(rt: HostRuntime) -> Result<(), Fail> {
    let gate = gathered(&rt, rt.alloc())?;
    assert!(rt; gate.compiled_at_once.load(Ordering::SeqCst));
    Ok(())
}

// No step is reported before all four kernels have ended, each on its core. A worker that stood there with the scheduler would keep
// the others from that.
#[test]
fn four_kernels_run_on_four_cores_at_once(rt: HostRuntime) -> Result<(), Fail> {
    let gate = gathered(&rt, rt.alloc())?;
    assert!(rt; gate.ended_at_once.load(Ordering::SeqCst));
    Ok(())
}
