// A kernel step at a desk.

ghost use Rattle.std.specs.Prelude.{IfOk, OnErr};
ghost use mathlib.Core.List.{IsPrefix};
ghost use Rattle.kern_syntax.specs.TreeOf.{tree_of};
ghost use Rattle.lab_kernels.specs.Meant.{TakesArguments};
ghost use Rattle.desk_kernels.specs.Chairs.{IsAt, IsSameChair, KnowsItsOwn};
ghost use Rattle.desk_kernels.specs.Kernels.{LeavesKernelAt, RunsKernelAt};

use crate::running::run_function_at;
use desk::{Chair, Desk};
use lab_kernels::{Compiled, runs_with_fitting_replies_are_meant};
use rtio_core::{Core, StartOf};
use sched_state::KernelResult;
use std::alloc::{AllocError, Global};
use std::sync::Wait;

/// Runs a function of a compiled kernel as a session of a chair at the desk of a core, with so many units. The desk is held only to
/// start the session, to let the core tick on and ask a request, and to end the session; between two holdings it is free. Where
/// another session is open, or another request waits, the chair puts the core back and tries again. Where a request isn't decided at
/// the horizon, the session ends in the same holding with the outcome Horizon. The kernel has the function, and the arguments fit it.
/// The only error is want of memory.
pub fn run_kernel_at<R: Wait>(
    rt: &R,
    alloc: Global,
    desk: &Desk<Core>,
    chair: &mut Chair<Core>,
    compiled: &Compiled,
    of: StartOf,
    units: u32,
) -> Result<KernelResult, AllocError>
    requires at { IsAt desk.now chair.old }
    requires arguments { TakesArguments (tree_of compiled.now.0) of.function of.args }
    // It is the same chair, and holds nothing.
    ensures same { IsSameChair chair.old chair.new }
    // It has seen more, and knows its own acts if it did.
    ensures later { IsPrefix chair.old.seen chair.new.seen }
    ensures knows { KnowsItsOwn chair.old → KnowsItsOwn chair.new }
    // It has put one session of the kernel, whose requests, outcome and cursor are those of the kernel's meaning under its replies; each
    // request was asked at its top; and the result is that of the session.
    ensures kernel { IfOk result (λ result. RunsKernelAt (tree_of compiled.now.0) compiled.now.1 units of desk.now.fixed chair.old chair.new result) }
    // Without memory it has put nothing, or just this session, which has no end and stays open. It has the first requests of the kernel's
    // meaning with their replies, each asked at its top.
    ensures left { OnErr result (LeavesKernelAt (tree_of compiled.now.0) units of desk.now.fixed chair.old chair.new) }
{
    runs_with_fitting_replies_are_meant();
    run_function_at(rt, alloc, desk, chair, compiled.code(), of, units)
}
