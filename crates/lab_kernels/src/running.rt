// A whole session on a core of one's own.

ghost use Rattle.std.specs.Prelude.{◌≡◌, IfOk, None, OnErr};
ghost use Rattle.rtio_core.specs.Entries.{open_session};
ghost use Rattle.core_cpu.specs.Standing.{HasEntry};
ghost use Rattle.lab_kernels.specs.CutShort.{LeavesCode};
ghost use Rattle.lab_kernels.specs.Runs.{HasRun};

use crate::owner::Owner;
use core_image::Verified;
use core_session::run_lent;
use rtio_core::{Core, StartOf};
use sched_state::{KernelResult, SetList};
use std::alloc::{AllocError, Global};

/// Runs a function of accepted code as a session of chair `who`, with so many units, at once: the core ticks only where a request
/// has to wait, or to where it is stopped before a request is asked. No session is open on it. Where a request isn't decided at the
/// horizon the session ends with the outcome Horizon. The result tells the session's outcome, the datasets that it set, in order,
/// and how many instructions it took. The only error is want of memory.
pub fn run_function(
    alloc: Global,
    core: &mut Core,
    who: u32,
    code: &Verified,
    of: StartOf,
    units: u32,
) -> Result<KernelResult, AllocError>
    requires entry { HasEntry code.now of.function of.args }
    requires free { open_session core.old.history ≡ None }
    // The history has grown by one session of the chair, whose requests, outcome and cursor are those of the run of the code under
    // its replies; each request was asked at its top; and the result is that of the session.
    ensures ran { IfOk result (λ result. HasRun code.now units who of core.old core.new result) }
    // Without memory no session was started, or just this one, and it has no end. It has the first requests of the run of the code
    // with their replies, each asked at its top.
    ensures left { OnErr result (LeavesCode code.now units who of core.old core.new) }
{
    let mut sets = Vec::new(alloc);
    let ran = run_lent(&Owner { who }, alloc, core, &mut sets, code, of, units)?;
    Ok(KernelResult {
        outcome: ran.outcome,
        sets: SetList::of(sets),
        steps: ran.steps,
    })
}
