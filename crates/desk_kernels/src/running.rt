// A whole session at a desk.

ghost use Rattle.std.specs.Prelude.{IfOk, OnErr};
ghost use mathlib.Core.List.{IsPrefix};
ghost use Rattle.core_cpu.specs.Standing.{HasEntry};
ghost use Rattle.desk_kernels.specs.Chairs.{IsAt, IsSameChair, KnowsItsOwn};
ghost use Rattle.desk_kernels.specs.Sessions.{LeavesCodeAt, RunsCodeAt};

use crate::at_desk::AtDesk;
use core_image::Verified;
use core_session::run_lent;
use desk::{Chair, Desk};
use rtio_core::{Core, StartOf};
use sched_state::{KernelResult, SetList};
use std::alloc::{AllocError, Global};
use std::sync::Wait;

/// Runs a function of accepted code as a session of the chair, with so many units, as `run_kernel_at` does.
pub(crate) fn run_function_at<R: Wait>(
    rt: &R,
    alloc: Global,
    desk: &Desk<Core>,
    chair: &mut Chair<Core>,
    code: &Verified,
    of: StartOf,
    units: u32,
) -> Result<KernelResult, AllocError>
    requires at { IsAt desk.now chair.old }
    requires entry { HasEntry code.now of.function of.args }
    ensures same { IsSameChair chair.old chair.new }
    ensures later { IsPrefix chair.old.seen chair.new.seen }
    ensures knows { KnowsItsOwn chair.old → KnowsItsOwn chair.new }
    ensures ran { IfOk result (λ result. RunsCodeAt code.now units of desk.now.fixed chair.old chair.new result) }
    ensures left { OnErr result (LeavesCodeAt code.now units of desk.now.fixed chair.old chair.new) }
{
    let mut sets = Vec::new(alloc);
    let ran = run_lent(
        &AtDesk { rt, desk },
        alloc,
        chair,
        &mut sets,
        code,
        of,
        units,
    )?;
    Ok(KernelResult {
        outcome: ran.outcome,
        sets: SetList::of(sets),
        steps: ran.steps,
    })
}
