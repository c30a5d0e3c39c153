// One holding of a core.

ghost use Rattle.std.specs.Prelude.{◌≡◌, IfOk, IsSome, IsTrue, OnErr, Some};
ghost use Rattle.rtio_types.specs.Requests.{is_well_formed};
ghost use Rattle.rtio_core.specs.Calls.{NoOtherWaits};
ghost use Rattle.rtio_core.specs.Lawful.{IsOpenFor};
ghost use Rattle.rtio_core.specs.Reply.{reply_to};
ghost use Rattle.rtio_core.specs.Top.{top};
ghost use Rattle.lab_kernels.specs.Turns.{IsTurn, ticked_on};

use core_session::Turn;
use rtio_core::{Ask, Core, what_is_decided_stays_decided};
use rtio_types::Request;
use std::alloc::{AllocError, Global};

// How many cycles a core goes on while it is held once, at most.
const MOST_TICKS: u64 = 4_096;

/// Holds a core once for a request of chair `who`, whose session is open: lets it tick until it is stopped, 4,096 cycles at
/// most, and asks where it stopped. So no request is asked before its time, and no chair holds a core for long; both are this
/// project's own rules. The only error is want of memory, and then the core has only ticked.
pub fn ask_stopped(
    alloc: Global,
    core: &mut Core,
    who: u32,
    request: Request,
) -> Result<Turn, AllocError>
    requires open { IsOpenFor who core.old.history }
    requires formed { IsTrue (is_well_formed request) }
    // Replied adds just the entry, asked at the top; Again hands the request back, and adds none; Over tells that it isn't decided
    // at the horizon, where the counter is then.
    ensures turn { IfOk result (λ turn. IsTurn core.old who request turn core.new) }
    ensures err { OnErr result (core.new ≡ ticked_on core.old) }
    // Want of memory comes only where there would have been a reply, as late as it may be.
    ensures at_top { OnErr result ((ticked_on core.old).counter ≡ top core.old.config core.old.history (Some request)) }
    ensures memory { OnErr result (NoOtherWaits core.old.waiting request × IsSome (reply_to core.old.config core.old.history request (ticked_on core.old).counter)) }
{
    what_is_decided_stays_decided();
    core.leap(MOST_TICKS);
    let _known = core.history();
    if !core.stopped() {
        return Ok(Turn::Again(request));
    }
    match core.ask(alloc, who, request) {
        Ok(Ask::Reply(reply)) => Ok(Turn::Replied(reply)),
        Ok(Ask::NotYet { waiting, .. }) => {
            if core.counter() == core.horizon() {
                Ok(Turn::Over)
            } else {
                Ok(Turn::Again(waiting.request()))
            }
        }
        Ok(Ask::OtherPending { request, .. }) => Ok(Turn::Again(request)),
        Err(_) => Err(AllocError),
    }
}
