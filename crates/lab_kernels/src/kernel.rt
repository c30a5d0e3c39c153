// A kernel step.

ghost use Rattle.std.specs.Prelude.{◌≡◌, IfOk, None, OnErr};
ghost use Rattle.kern_syntax.specs.TreeOf.{tree_of};
ghost use Rattle.rtio_core.specs.Entries.{open_session};
ghost use Rattle.kernel_session.specs.Meant.{TakesArguments};
ghost use Rattle.lab_kernels.specs.Meanings.{LeavesKernel, RunsKernel};

use crate::running::run_function;
use kernel_session::{Compiled, runs_with_fitting_replies_are_meant};
use rtio_core::{Core, StartOf};
use sched_state::KernelResult;
use std::alloc::{AllocError, Global};

/// Runs a function of a compiled kernel as a session of chair `who`, with so many units, as `run_function` does. The kernel has the
/// function, the arguments fit it, and no session is open. The only error is want of memory.
pub fn run_kernel(
    alloc: Global,
    core: &mut Core,
    who: u32,
    compiled: &Compiled,
    of: StartOf,
    units: u32,
) -> Result<KernelResult, AllocError>
    requires arguments { TakesArguments (tree_of compiled.now.0) of.function of.args }
    requires free { open_session core.old.history ≡ None }
    // The history has grown by one session of the chair, whose requests, outcome and cursor are those of the kernel's meaning under
    // its replies; each request was asked at its top; and the result is that of the session.
    ensures kernel { IfOk result (λ result. RunsKernel (tree_of compiled.now.0) compiled.now.1 units who of core.old core.new result) }
    // Without memory no session was started, or just this one, and it has no end. It has the first requests of the kernel's meaning
    // with their replies, each asked at its top.
    ensures left { OnErr result (LeavesKernel (tree_of compiled.now.0) units who of core.old core.new) }
{
    runs_with_fitting_replies_are_meant();
    run_function(alloc, core, who, compiled.code(), of, units)
}
