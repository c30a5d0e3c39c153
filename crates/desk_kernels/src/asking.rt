// How a request is asked at a desk.

ghost use Rattle.std.specs.Prelude.{◌≡◌, IfOk, IsTrue, OnErr};
ghost use Rattle.rtio_types.specs.Requests.{is_well_formed};
ghost use Rattle.rtio_core.specs.Core.{IsCore};
ghost use Rattle.rtio_core.specs.Lawful.{IsOpenFor};
ghost use Rattle.desk_kernels.specs.Chairs.{core_entries};
ghost use Rattle.desk_kernels.specs.Holdings.{GoesOn, IsDecidedAt, IsHeldTurn, IsReady, IsTurnAt, IsTurnOrEnd};

use core_session::Turn;
use desk::{Chair, Desk};
use lab_kernels::ask_stopped;
use rtio_core::Core;
use rtio_types::{Outcome, Reply, Request};
use std::alloc::{AllocError, Global};
use std::sync::Wait;

/// Asks a request of the chair's open session until it is decided; between two holdings the desk is free. The core ticks on in each,
/// so nothing is gained by waiting between them. None where it isn't decided at the horizon, and then the session has ended there,
/// with this cursor (mu). The only error is want of memory, and then the chair has put nothing.
pub(crate) fn ask_until_decided<R: Wait>(
    rt: &R,
    alloc: Global,
    desk: &Desk<Core>,
    chair: &mut Chair<Core>,
    request: Request,
    cursor: i64,
) -> Result<Option<Reply>, AllocError>
    requires ready { IsReady desk.now chair.old }
    requires open { IsOpenFor chair.old.number (core_entries chair.old.seen) }
    requires formed { IsTrue (is_well_formed request) }
    ensures goes { GoesOn desk.now chair.old chair.new }
    ensures decided { IfOk result (λ reply. IsDecidedAt desk.now.fixed chair.old request cursor reply chair.new) }
    ensures err { OnErr result (chair.new.seen ≡ chair.old.seen) }
{
    let mut asked = request;
    for _ in rt.forever() {
        match ask_once(rt, alloc, desk, chair, asked, cursor)? {
            Turn::Replied(reply) => return Ok(Some(reply)),
            Turn::Again(back) => asked = back,
            Turn::Over => return Ok(None),
        }
    }
    unreachable!()
}

// One holding: the core ticks until it is stopped, 4,096 cycles at most, and is asked where it stopped. At the horizon the session
// ends where the request isn't decided.
fn ask_once<R: Wait>(
    rt: &R,
    alloc: Global,
    desk: &Desk<Core>,
    chair: &mut Chair<Core>,
    request: Request,
    cursor: i64,
) -> Result<Turn, AllocError>
    requires ready { IsReady desk.now chair.old }
    requires open { IsOpenFor chair.old.number (core_entries chair.old.seen) }
    requires formed { IsTrue (is_well_formed request) }
    ensures goes { GoesOn desk.now chair.old chair.new }
    ensures turn { IfOk result (λ turn. IsTurnAt desk.now.fixed chair.old request cursor turn chair.new) }
    ensures err { OnErr result (chair.new.seen ≡ chair.old.seen) }
{
    let who = chair.number();
    let mut held = desk.take(rt, chair);
    let core = held.value();
    let _known = core.history();
    let turn = ask_or_end(alloc, core, who, request, cursor);
    desk.put(chair, held);
    turn
}

// Asks the core that is held, and ends the session where the request isn't decided at the horizon.
fn ask_or_end(
    alloc: Global,
    core: &mut Core,
    who: u32,
    request: Request,
    cursor: i64,
) -> Result<Turn, AllocError>
    requires open { IsOpenFor who core.old.history }
    requires formed { IsTrue (is_well_formed request) }
    ensures known { IsCore core.new }
    ensures config { core.new.config ≡ core.old.config }
    ensures turn { IfOk result (λ turn. IsTurnOrEnd core.old who request cursor turn core.new) }
    ensures err { OnErr result (core.new.history ≡ core.old.history) }
{
    let turn = match ask_held(alloc, core, who, request) {
        Ok(Turn::Over) => match core.end(alloc, who, Outcome::Horizon, cursor) {
            Ok(()) => Ok(Turn::Over),
            Err(_) => Err(AllocError),
        },
        other => other,
    };
    let _after = core.history();
    turn
}

// Asks the core that is held. Where it was stopped already, and the request began to wait, the core may go on in this holding still,
// and is asked once more: so an output that waits for room takes the core from its desk once.
fn ask_held(alloc: Global, core: &mut Core, who: u32, request: Request) -> Result<Turn, AllocError>
    requires open { IsOpenFor who core.old.history }
    requires formed { IsTrue (is_well_formed request) }
    ensures turn { IfOk result (λ turn. IsHeldTurn core.old who request turn core.new) }
    ensures err { OnErr result ((core.new.history ≡ core.old.history) × (core.new.config ≡ core.old.config)) }
{
    let before = core.counter();
    match ask_stopped(alloc, core, who, request)? {
        Turn::Again(back) => {
            if core.counter() == before {
                ask_stopped(alloc, core, who, back)
            } else {
                Ok(Turn::Again(back))
            }
        }
        decided => Ok(decided),
    }
}
