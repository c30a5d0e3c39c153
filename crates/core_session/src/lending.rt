// Sessions on cores that are lent.

ghost use Rattle.std.specs.Prelude.{◌≡◌, ◌+◌, IfOk, IsTrue, None, OnErr};
ghost use Rattle.core_cpu.specs.Standing.{HasEntry};
ghost use Rattle.core_session.specs.Scripts.{HasNumber};
ghost use Rattle.core_session.specs.Lending.{HasAsking, HasBegun, HasRun, HasUnderWay, Leads, LeadsAsking, Leaves, LeavesAsking, LeavesBegun, LeavesSession, Plays};

use crate::lender::Lender;
use core_cpu::{Cpu, Stop};
use core_image::Verified;
use rtio_core::StartOf;
use rtio_types::{Outcome, Reply, Request};
use std::alloc::{AllocError, Global};

/// How a session ended, and how many instructions it began.
#[derive(Clone, Copy, Debug, PartialEq, Eq)]
pub struct Ran {
    pub outcome: Outcome,
    pub steps: u64,
}

/// Runs a function of accepted code as a session on a core that is lent, with so many units: starts the session, and lets the
/// processor go from request to request. Where a request isn't decided at the horizon the session ends with the outcome Horizon. The
/// only error is want of memory.
pub fn run_lent<L: Lender>(
    lender: &L,
    alloc: Global,
    place: &mut L::Place,
    kept: &mut L::Kept,
    code: &Verified,
    of: StartOf,
    units: u32,
) -> Result<Ran, AllocError>
    requires may { L.may_start lender.now (place.old, kept.old) }
    requires entry { HasEntry code.now of.function of.args }
    // One session was started, whose requests, outcome and cursor are those of the run of the code under its replies; and it has ended.
    ensures ran { IfOk result (λ ran. HasRun (L.has_ended lender.now) (L.is_given_up lender.now) code.now units of (place.old, kept.old) (place.new, kept.new) ran.outcome ran.steps) }
    // Without memory no session was started, or just this one, and it has no end: it has the first requests of the run of the code.
    ensures left { OnErr result (LeavesSession (L.is_open lender.now) (L.is_unended lender.now) (L.is_held_up lender.now) (L.is_unstarted lender.now) code.now units of (place.old, kept.old) (place.new, kept.new)) }
{
    let function = of.function;
    let args = of.args.copy(alloc)?;
    let cursor = lender.start(alloc, place, kept, of)?;
    let mut cpu = Cpu::boot(alloc, code, function, args.items(), cursor, units)?;
    let outcome = play(lender, alloc, place, kept, &mut cpu)?;
    let steps = cpu.steps();
    Ok(Ran { outcome, steps })
}

// Plays a session that has begun to its end.
fn play<L: Lender>(
    lender: &L,
    alloc: Global,
    place: &mut L::Place,
    kept: &mut L::Kept,
    cpu: &mut Cpu<'_>,
) -> Result<Outcome, AllocError>
    requires { HasBegun (L.is_open lender.now) (place.old, kept.old) cpu.old }
    ensures plays { IfOk result (λ how. Plays (L.is_open lender.now) (L.has_ended lender.now) (L.is_given_up lender.now) (place.old, kept.old) cpu.old (place.new, kept.new) cpu.new how) }
    ensures left { OnErr result (LeavesBegun (L.is_open lender.now) (L.is_unended lender.now) (L.is_held_up lender.now) (place.old, kept.old) cpu.old (place.new, kept.new)) }
{
    loop {
        if let Some(outcome) = go_on(lender, alloc, place, kept, cpu)? {
            return Ok(outcome);
        }
    }
}

// Lets the processor go on to its next request, which is asked until it is decided, or to its end, and ends the session there.
fn go_on<L: Lender>(
    lender: &L,
    alloc: Global,
    place: &mut L::Place,
    kept: &mut L::Kept,
    cpu: &mut Cpu<'_>,
) -> Result<Option<Outcome>, AllocError>
    requires { HasUnderWay (L.is_open lender.now) (place.old, kept.old) cpu.old }
    ensures leads { IfOk result (λ end. Leads (L.is_open lender.now) (L.has_ended lender.now) (L.is_given_up lender.now) (place.old, kept.old) cpu.old (place.new, kept.new) cpu.new end) }
    ensures more { IfOk result (λ end. end ≡ None → L.entries lender.now (place.new, kept.new) ≡ L.entries lender.now (place.old, kept.old) + 1) }
    ensures err { OnErr result (Leaves (L.is_open lender.now) (L.is_unended lender.now) (L.is_held_up lender.now) (place.old, kept.old) cpu.old (place.new, kept.new)) }
{
    let stop = cpu.advance(alloc)?;
    match stop {
        Stop::Ask(request) => answer(lender, alloc, place, kept, cpu, request),
        Stop::Ended(outcome) => {
            let cursor = cpu.cursor();
            lender.end(alloc, place, kept, outcome, cursor)?;
            Ok(Some(outcome))
        }
    }
}

// Asks the processor's request until it is decided, and hands the reply on.
fn answer<L: Lender>(
    lender: &L,
    alloc: Global,
    place: &mut L::Place,
    kept: &mut L::Kept,
    cpu: &mut Cpu<'_>,
    request: Request,
) -> Result<Option<Outcome>, AllocError>
    requires { HasAsking (L.is_open lender.now) request (place.old, kept.old) cpu.old }
    ensures leads { IfOk result (λ end. LeadsAsking (L.is_open lender.now) (L.has_ended lender.now) (L.is_given_up lender.now) request (place.old, kept.old) cpu.old (place.new, kept.new) cpu.new end) }
    ensures more { IfOk result (λ end. end ≡ None → L.entries lender.now (place.new, kept.new) ≡ L.entries lender.now (place.old, kept.old) + 1) }
    ensures err { OnErr result (LeavesAsking (L.is_open lender.now) (L.is_unended lender.now) (L.is_held_up lender.now) request (place.old, kept.old) cpu.old (place.new, kept.new)) }
{
    let cursor = cpu.cursor();
    let decided = lender.ask(alloc, place, kept, request, cursor)?;
    match decided {
        Some(reply) => {
            has_number(&reply);
            cpu.reply(reply);
            Ok(None)
        }
        None => Ok(Some(Outcome::Horizon)),
    }
}

// Reads the number in a reply, or the length of its recording, which is one of 64 bits.
fn has_number(reply: &Reply)
    ensures { HasNumber reply.now }
{
    match reply {
        Reply::Time(number) | Reply::Stamp(number) | Reply::Handle(number) => {
            let _number = *number;
        }
        Reply::Trace(recording) => {
            let _length = recording.length;
        }
        _ => {}
    }
}
