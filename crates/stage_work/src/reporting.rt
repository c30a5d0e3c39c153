// Reports of a job in flight, by the chair that took it. Jobs of other runs may be in flight too.

ghost use Rattle.std.specs.Prelude.{◌≡◌, OnErr, OnOk, Some};
ghost use Rattle.exp_runs.specs.Keys.{run_of};
ghost use Rattle.sched_state.specs.declared.entry.JobName.TheVariants as name;
ghost use Rattle.sched_state.specs.declared.entry.SchedAct.TheVariants as act;
ghost use Rattle.sched_core.specs.declared.answer.Why.TheVariants.{Memory};
ghost use Rattle.sched_core.specs.Calls.{HasJob, RanFits, stepped, with_entry};
ghost use Rattle.sched_core.specs.Scheds.{sched_state};
ghost use Rattle.stage_work.specs.Jobs.{Flies, HasKit};
ghost use Rattle.stage_work.specs.Reports.{IsRight, act_told, job_told};

use crate::tasks::Report;
use exp_runs::Run;
use lab_kits::Kit;
use sched_core::{KernelResult, Sched, Why};
use std::alloc::{AllocError, Global};

/// Reports for chair `who`, which took it, a job that is in flight. The only error is want of memory, and then nothing was reported.
pub fn write_report(
    alloc: Global,
    sched: &mut Sched<Kit>,
    who: u32,
    report: Report,
) -> Result<(), AllocError>
    requires flies { Flies who (job_told report) sched.old }
    requires right { IsRight sched.old.session sched.old.history report }
    ensures ok { OnOk result (sched.new ≡ with_entry who (act_told sched.old.session sched.old.history report) sched.old) }
    ensures err { OnErr result (sched.new ≡ sched.old) }
{
    match report {
        Report::Prepared { rid, kit } => report_prepared(alloc, sched, who, rid, kit),
        Report::Refused { rid } => report_refused(alloc, sched, who, rid),
        Report::Stepped { rid, pos, kit, ran } => report_step(
            alloc, sched, who, rid, pos, kit, ran,
        ),
        Report::Analyzed { rid } => report_analyzed(alloc, sched, who, rid),
    }
}

// Reports that a run was prepared, and hands its kit over.
fn report_prepared(
    alloc: Global,
    sched: &mut Sched<Kit>,
    who: u32,
    rid: u64,
    kit: Kit,
) -> Result<(), AllocError>
    requires flies { Flies who (name.Prepare rid) sched.old }
    requires kit { HasKit sched.old rid kit }
    ensures ok { OnOk result (sched.new ≡ with_entry who (act.Prepared rid) sched.old) }
    ensures err { OnErr result (sched.new ≡ sched.old) }
{
    let _known = sched.history();
    match sched.prepared(alloc, who, rid, kit) {
        Ok(()) => Ok(()),
        Err(refused) => Err(want_of_memory(refused.why)),
    }
}

// Reports that a run's source was refused.
fn report_refused(
    alloc: Global,
    sched: &mut Sched<Kit>,
    who: u32,
    rid: u64,
) -> Result<(), AllocError>
    requires { Flies who (name.Prepare rid) sched.old }
    ensures ok { OnOk result (sched.new ≡ with_entry who (act.SourceRefused rid) sched.old) }
    ensures err { OnErr result (sched.new ≡ sched.old) }
{
    let _known = sched.history();
    match sched.failed(alloc, who, rid) {
        Ok(()) => Ok(()),
        Err(refused) => Err(want_of_memory(refused.why)),
    }
}

// Reports a step of a run, with its result if it is a kernel's, and hands the run's kit back.
fn report_step(
    alloc: Global,
    sched: &mut Sched<Kit>,
    who: u32,
    rid: u64,
    pos: u32,
    kit: Kit,
    ran: Option<KernelResult>,
) -> Result<(), AllocError>
    requires flies { Flies who (name.Step rid pos) sched.old }
    requires kit { HasKit sched.old rid kit }
    requires ran { RanFits sched.old rid pos ran }
    ensures ok { OnOk result (sched.new ≡ stepped who rid pos ran sched.old) }
    ensures err { OnErr result (sched.new ≡ sched.old) }
{
    let _known = sched.history();
    match sched.step_done(alloc, who, rid, pos, kit, ran) {
        Ok(()) => Ok(()),
        Err(refused) => Err(want_of_memory(refused.why)),
    }
}

// Reports that a run is to be analyzed now.
fn report_analyzed(
    alloc: Global,
    sched: &mut Sched<Kit>,
    who: u32,
    rid: u64,
) -> Result<(), AllocError>
    requires { Flies who (name.Analyze rid) sched.old }
    ensures ok { OnOk result (sched.new ≡ with_entry who (act.Analyzed rid) sched.old) }
    ensures err { OnErr result (sched.new ≡ sched.old) }
{
    let _known = sched.history();
    match sched.analyzed(alloc, who, rid) {
        Ok(()) => Ok(()),
        Err(refused) => Err(want_of_memory(refused.why)),
    }
}

/// The run whose preparation is in flight.
pub(crate) fn run_in_flight(sched: &Sched<Kit>, rid: u64) -> Run
    requires { HasJob (sched_state sched.now) (name.Prepare rid) }
    ensures { run_of (sched_state sched.now).runs rid ≡ Some result }
{
    let _known = sched.history();
    match sched.runs().get(rid) {
        Some(run) => *run,
        None => unreachable!(),
    }
}

// The error of a report that was refused, where nothing but want of memory can refuse it.
fn want_of_memory(why: Why) -> AllocError
    requires { why ≡ Memory }
{
    match why {
        Why::Memory => AllocError,
        Why::NoRun | Why::WrongStatus { .. } | Why::Foreign { .. } => unreachable!(),
    }
}
