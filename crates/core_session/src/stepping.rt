// The steps of a session that a schedule gives.

ghost use Rattle.std.specs.Prelude.{◌≡◌, IfOk, IsTrue, OnErr};
ghost use Rattle.rtio_types.specs.Requests.{is_well_formed};
ghost use Rattle.rtio_core.specs.Calls.{NoOtherWaits};
ghost use Rattle.rtio_core.specs.Lawful.{IsOpenFor};
ghost use Rattle.core_session.specs.Stepping.{HasStoppedAsking, HasStoppedOnce, IsAskedByStep, IsAskedBySteps, IsCpuNext, ticks_in_a_row};

use crate::turn::Turn;
use rtio_core::{Ask, Core, Tick, what_is_decided_stays_decided};
use rtio_types::{Outcome, Reply, Request};
use run_schedule::{Schedule, Step};
use std::alloc::{AllocError, Global};

/// Asks a request of chair 0, whose session is open and which has no other request waiting, at each step of the processor until it
/// is decided. None where it isn't decided at the horizon, and then the session has ended there with this cursor (mu).
pub(crate) fn ask_by_steps(
    alloc: Global,
    core: &mut Core,
    schedule: &mut Schedule,
    request: Request,
    cursor: i64,
) -> Result<Option<Reply>, AllocError>
    requires open { IsOpenFor 0 core.old.history }
    requires formed { IsTrue (is_well_formed request) }
    requires free { NoOtherWaits core.old.waiting request }
    ensures asked { IfOk result (λ reply. IsAskedBySteps core.old schedule.old request cursor reply core.new schedule.new) }
    ensures err { OnErr result (HasStoppedAsking core.old schedule.old request core.new) }
{
    let mut asked = request;
    loop {
        tick_on(core, schedule);
        match ask_once(alloc, core, asked, cursor)? {
            Turn::Replied(reply) => return Ok(Some(reply)),
            Turn::Again(back) => asked = back,
            Turn::Over => return Ok(None),
        }
    }
}

/// Lets the core tick as the schedule says, until a step of the processor comes. In lockstep all ticks up to where the core is
/// stopped are one leap.
pub(crate) fn tick_on(core: &mut Core, schedule: &mut Schedule)
    ensures { IsCpuNext core.old schedule.old core.new schedule.new }
{
    loop {
        let _known = core.history();
        match schedule.next(core.stopped()) {
            Step::Cpu => return,
            Step::Tick => {
                core.leap(ticks_in_a_row(schedule));
            }
        }
    }
}

// As many ticks as the schedule gives at least, once it gives one.
fn ticks_in_a_row(schedule: &Schedule) -> u64
    ensures { result ≡ ticks_in_a_row schedule.now }
{
    if schedule.is_lockstep() { u64::MAX } else { 1 }
}

// A step of the processor: asks the request. Where it isn't decided the core ticks once, and at the horizon the session ends.
fn ask_once(
    alloc: Global,
    core: &mut Core,
    request: Request,
    cursor: i64,
) -> Result<Turn, AllocError>
    requires open { IsOpenFor 0 core.old.history }
    requires formed { IsTrue (is_well_formed request) }
    requires free { NoOtherWaits core.old.waiting request }
    ensures asked { IfOk result (λ turn. IsAskedByStep core.old request cursor turn core.new) }
    ensures err { OnErr result (HasStoppedOnce core.old request core.new) }
{
    let _known = core.history();
    what_is_decided_stays_decided();
    match core.ask(alloc, 0, request) {
        Ok(Ask::Reply(reply)) => Ok(Turn::Replied(reply)),
        Ok(Ask::NotYet { waiting, .. }) => match core.tick() {
            Tick::Went => Ok(Turn::Again(waiting.request())),
            Tick::Held { .. } => unreachable!(),
            Tick::Horizon => {
                core.end(alloc, 0, Outcome::Horizon, cursor)?;
                Ok(Turn::Over)
            }
        },
        Ok(Ask::OtherPending { .. }) => unreachable!(),
        Err(_) => Err(AllocError),
    }
}
