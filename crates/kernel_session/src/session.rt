// A session of a compiled kernel.

ghost use Rattle.std.specs.Prelude.{◌≡◌, ◌⊎◌, ℕ, Option, Some, None, Ok, Err, IfOk, OnOk};
ghost use Rattle.kern_syntax.specs.TreeOf.{tree_of};
ghost use Rattle.rtio_core.specs.Entries.{open_session};
ghost use Rattle.run_schedule.specs.Schedules.{Lockstep};
ghost use Rattle.core_session.specs.Lockstep.{GrowsAtTop};
ghost use Rattle.core_session.specs.Sessions.{RunsSession, beginning_of};
ghost use Rattle.core_session.specs.Timed.{IsTimed, IsLeftWithin};
ghost use Rattle.core_session.specs.declared.running.SessionEnd.TheVariants as SessionEnd;
ghost use Rattle.kernel_session.specs.Meant.{MeansSession, TakesArguments, script_of};

use code_replies::runs_with_fitting_replies_are_meant;
use core_code::Compiled;
use core_session::{Ran, SessionEnd, run_code};
use rtio_core::{Core, StartOf};
use run_schedule::Schedule;
use std::alloc::Global;

/// Runs a function of a compiled kernel as a session of chair 0, with so many units, step by step as the schedule says. The
/// kernel has the function, and the arguments fit it. Where a request isn't decided at the horizon the session ends with the
/// outcome Horizon. It is refused where a session is open, and for want of memory.
pub fn run_session(
    alloc: Global,
    core: &mut Core,
    compiled: &Compiled,
    of: StartOf,
    units: u32,
    schedule: &mut Schedule,
) -> Result<Ran, SessionEnd>
    requires { TakesArguments (tree_of compiled.now.0) of.function of.args }
    // The history has grown by one session, whose requests, outcome and cursor are those of the kernel's meaning under its
    // replies.
    ensures session { IfOk result (λ ran. MeansSession (tree_of compiled.now.0) units of core.old core.new ran.outcome) }
    // It is that of the run of its code, whose instructions are counted so.
    ensures code { IfOk result (λ ran. RunsSession compiled.now.1 units of core.old core.new ran.outcome ran.steps) }
    // It is the one that the schedule makes of the meaning, step by step.
    ensures timed { OnOk result (IsTimed (script_of (tree_of compiled.now.0) (beginning_of of units core.old)) 0 of
        core.old schedule.old core.new schedule.new) }
    // In lockstep each request was asked where the core had stopped.
    ensures lockstep { schedule.old ≡ Lockstep → OnOk result (GrowsAtTop core.old core.new) }
    ensures busy { (rid : ℕ) → result ≡ Err (SessionEnd.Busy rid) →
        ((chair : ℕ) × (open_session core.old.history ≡ Some (chair, rid))) × (core.new ≡ core.old) × (schedule.new ≡ schedule.old) }
    // Without memory the core is as before, or as after some of the steps. At the horizon the request that comes next may
    // wait then, where it isn't decided there.
    ensures memory { result ≡ Err SessionEnd.Memory → open_session core.old.history ≡ None }
    ensures left { result ≡ Err SessionEnd.Memory → (core.new ≡ core.old) ⊎
        IsLeftWithin (script_of (tree_of compiled.now.0) (beginning_of of units core.old)) 0 of core.old schedule.old core.new }
{
    runs_with_fitting_replies_are_meant();
    run_code(alloc, core, compiled.code(), of, units, schedule)
}
