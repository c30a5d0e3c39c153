// One worker without a core.

ghost use Rattle.std.specs.Prelude.{◌≡◌, length, IfSome, IsTrue};
ghost use Rattle.exp_model.specs.Sessions.{is_session};
ghost use Rattle.sched_state.specs.Picks.{is_over};
ghost use Rattle.sched_core.specs.Scheds.{sched_state};

use exp_model::Session;
use rtio_types::Outcome;
use sched_core::{Job, KernelResult, Next, SetList};
use sched_driver::{Driver, Token};
use std::alloc::Global;

// A preparation, 16 steps and an analysis of each of 64 runs, and the end.
const MOST_TURNS: u32 = 64 * 18 + 1;

/// What a scheduler came to.
#[derive(Clone, Copy)]
pub struct Reached {
    /// How many runs there were.
    pub runs: u64,
    /// How many entries its history has.
    pub entries: usize,
    /// Where the lab clock stands.
    pub clock: u64,
}

/// Takes each job of a session and reports it, until nothing is left to do: no arrival is left, and every run has ended. None
/// is want of memory.
pub fn served(alloc: Global, session: &Session) -> Option<Driver>
    requires { IsTrue (is_session session.now) }
    ensures { IfSome result (λ driver. IsTrue (is_over (sched_state driver))) }
{
    let mut driver = Driver::new(alloc, session).ok()?;
    for _turn in 0..MOST_TURNS {
        match driver.next(alloc).ok()? {
            Next::Job(job) => report(alloc, &mut driver, &job)?,
            Next::Finished => return Some(driver),
            Next::Idle | Next::Stopped { .. } => return None,
        }
    }
    None
}

/// Tells of a scheduler.
pub fn reached_by(driver: &Driver) -> Reached
    ensures runs { result.runs ≡ length (sched_state driver.now).runs }
    ensures entries { result.entries ≡ length driver.now.history }
    ensures clock { result.clock ≡ (sched_state driver.now).clock }
{
    let sched = driver.sched();
    Reached {
        runs: sched.runs().len(),
        entries: sched.history().len(),
        clock: sched.clock(),
    }
}

// Reports a job: a kernel returned, and set nothing.
fn report(alloc: Global, driver: &mut Driver, job: &Job<Token>) -> Option<()> {
    match job {
        Job::Prepare { rid, source } => driver.prepared(alloc, *rid, *source).ok(),
        Job::Step { rid, pos, kit, .. } => {
            let ran = KernelResult {
                outcome: Outcome::Returned,
                sets: SetList::of(Vec::new(alloc)),
                steps: 0,
            };
            driver.step_done(alloc, *rid, *pos, kit.source, ran).ok()
        }
        Job::Analyze { rid } => driver.analyzed(alloc, *rid).ok(),
    }
}
