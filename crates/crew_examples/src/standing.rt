// What the others do while a worker is kept standing.

use crate::crews::{MOST_TURNS, NOBODY, report_of};
use lab_kits::{Gate, Place};
use std::sync::atomic::{AtomicBool, AtomicU64, Ordering};
use std::test::Fail;
use std::thread;

// Gives the processor away so many times.
fn stand(turns: u32) {
    for _ in 0..turns {
        thread::yield_now();
    }
}

// Waits until something is told, and gives whether it was.
fn await_told(told: &AtomicBool) -> bool {
    for _ in 0..MOST_TURNS {
        if told.load(Ordering::SeqCst) {
            return true;
        }
        thread::yield_now();
    }
    false
}

// ---- where a kernel has ended

// Three workers and three pipelines. Run 0 has one kernel and run 1 two; run 2 arrives at the first report of a step.
const THREE: &str =
    r#"{"workers":3,"pipelines":[{},{},{}],"sources":["def main():\n    delay_mu(1000)\n    ttl0.pulse_mu(100)\n"],
"experiments":[{"source":0,"prepare":[],"run":[{"kernel":"main","args":[]}],"analyze":[]},
{"source":0,"prepare":[],"run":[{"kernel":"main","args":[]},{"kernel":"main","args":[]}],"analyze":[]}],
"arrivals":[{"at":0,"submit":{"experiment":0,"pipeline":0}},{"at":0,"submit":{"experiment":1,"pipeline":1}},
{"at":1,"submit":{"experiment":0,"pipeline":2}}]}"#;

// Behind the lines of the steps, whose order isn't settled.
const END_OF_THREE: &str = "run 0 done\nrun 1 done\nrun 2 done
core 0\nout 1000 0 0 1\nout 1100 0 0 0\ncursor 1100\ncounter 1096
core 1\nout 1000 0 0 1\nout 1100 0 0 0\nout 2100 0 0 1\nout 2200 0 0 0\ncursor 2200\ncounter 2200
core 2\nout 1000 0 0 1\nout 1100 0 0 0\ncursor 1100\ncounter 1096\nend\n";

// How long the third worker has nothing to do.
const A_WHILE: u32 = 200_000;

// Keeps the worker whose kernel of run 0 has ended until run 2 has ended its kernel, and tells whether it has. Until then the two others
// do all that there is to do:
// - The first kernel of run 1 is kept where it has ended until the one of run 0 stands, and for a while. Meanwhile the third worker has
//   nothing to do, and takes each core to let it go on, that of run 0 too.
// - Its report lets run 2 arrive. One worker is kept where it is about to compile for it, and one where the second kernel of run 1 has
//   ended, until both stand there: so the third worker has come back.
#[derive(Drop)]
struct Standing {
    stands: AtomicBool,
    ended_of_1: AtomicU64,
    stepping_by: AtomicU64,
    compiling_by: AtomicU64,
    met: AtomicBool,
    others_ended: AtomicBool,
    went_on: AtomicBool,
}

impl Gate for Standing {
    fn at(&self, worker: u32, place: Place) {
        match place {
            Place::KernelEnded { rid: 0 } => self.stand_still(),
            Place::KernelEnded { rid: 1 } => self.end_of_1(worker),
            Place::Compiling { rid: 2 } => {
                self.meet(&self.compiling_by, &self.stepping_by, worker)
            }
            Place::KernelEnded { rid: 2 } => self.end_of_2(),
            _ => {}
        }
    }
}

impl Standing {
    fn stand_still(&self) {
        self.stands.store(true, Ordering::SeqCst);
        if await_told(&self.others_ended) {
            self.went_on.store(true, Ordering::SeqCst);
        }
    }

    fn end_of_1(&self, worker: u32) {
        if self.ended_of_1.fetch_add(1, Ordering::SeqCst) > 0 {
            self.meet(&self.stepping_by, &self.compiling_by, worker);
        } else if await_told(&self.stands) {
            stand(A_WHILE);
        }
    }

    // Tells that a worker has come here, waits until another has come there, and tells so.
    fn meet(&self, here: &AtomicU64, there: &AtomicU64, worker: u32) {
        let worker = u64::from(worker);
        here.store(worker, Ordering::SeqCst);
        for _ in 0..MOST_TURNS {
            let other = there.load(Ordering::SeqCst);
            if other != NOBODY && other != worker {
                self.met.store(true, Ordering::SeqCst);
                return;
            }
            thread::yield_now();
        }
    }

    fn end_of_2(&self) {
        let is_met = self.met.load(Ordering::SeqCst);
        self.others_ended.store(is_met, Ordering::SeqCst);
    }
}

// A worker that stood there with its core, or with the scheduler, would keep the others from that.
#[test]
fn others_go_on_while_one_stands_where_its_kernel_has_ended(rt: HostRuntime) -> Result<(), Fail> {
    let alloc = rt.alloc();
    let gate = Standing {
        stands: AtomicBool::new(false),
        ended_of_1: AtomicU64::new(0),
        stepping_by: AtomicU64::new(NOBODY),
        compiling_by: AtomicU64::new(NOBODY),
        met: AtomicBool::new(false),
        others_ended: AtomicBool::new(false),
        went_on: AtomicBool::new(false),
    };
    let report = report_of(&rt, alloc, THREE, &gate)?;
    assert!(rt; report.ends_with(END_OF_THREE), "{report}");
    assert!(rt; gate.went_on.load(Ordering::SeqCst));
    Ok(())
}

// ---- nothing to do

// Two workers, and one pipeline. The kernel of run 0 sends a pulse ahead. The other runs have two kernels: the first one raises unless
// the core has gone on up to the pulse.
const AHEAD: &str =
    r#"{"workers":2,"pipelines":[{}],"sources":["def main():\n    at_mu(8000)\n    ttl0.on()\n",
"def main():\n    if core.get_rtio_counter_mu() < 8000:\n        x = 1 // 0\ndef behind():\n    pass\n"],
"experiments":[{"source":0,"prepare":[],"run":[{"kernel":"main","args":[]}],"analyze":[]},
{"source":1,"prepare":[],"run":[{"kernel":"main","args":[]},{"kernel":"behind","args":[]}],"analyze":[]}],
"arrivals":[{"at":0,"submit":{"experiment":0,"pipeline":0}},{"at":0,"submit":{"experiment":1,"pipeline":0}},
{"at":0,"submit":{"experiment":1,"pipeline":0}},{"at":0,"submit":{"experiment":1,"pipeline":0}},
{"at":0,"submit":{"experiment":1,"pipeline":0}},{"at":0,"submit":{"experiment":1,"pipeline":0}},
{"at":0,"submit":{"experiment":1,"pipeline":0}},{"at":0,"submit":{"experiment":1,"pipeline":0}}]}"#;

// Behind the lines of the steps and the runs, of which those that found the core where it was have failed.
const END_OF_AHEAD: &str = "core 0\nout 8000 0 0 1\ncursor 8000\ncounter 8000\nend\n";

// How long a worker is kept where a kernel has ended, while the other has nothing to do.
const KEPT: u32 = 1_000_000;

// Keeps each worker whose kernel has ended, until a run had its second kernel, and tells whether one had.
#[derive(Drop)]
struct Keeping {
    last: AtomicU64,
    went_on: AtomicBool,
}

impl Gate for Keeping {
    fn at(&self, _worker: u32, place: Place) {
        if let Place::KernelEnded { rid } = place {
            if self.last.load(Ordering::SeqCst) == rid {
                self.went_on.store(true, Ordering::SeqCst);
            }
            self.last.store(rid, Ordering::SeqCst);
            if !self.went_on.load(Ordering::SeqCst) {
                stand(KEPT);
            }
        }
    }
}

// A session that is open or begins lets no cycle pass here: no request costs anything, and none has to wait.
#[test]
fn a_worker_with_nothing_to_do_lets_the_core_go_on(rt: HostRuntime) -> Result<(), Fail> {
    let alloc = rt.alloc();
    let gate = Keeping {
        last: AtomicU64::new(NOBODY),
        went_on: AtomicBool::new(false),
    };
    let report = report_of(&rt, alloc, AHEAD, &gate)?;
    assert!(rt; report.ends_with(END_OF_AHEAD), "{report}");
    assert!(rt; gate.went_on.load(Ordering::SeqCst), "{report}");
    Ok(())
}
