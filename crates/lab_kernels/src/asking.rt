// Asking until there is a reply.

ghost use Rattle.std.specs.Prelude.{◌≡◌, IfOk, IsTrue, None, OnErr};
ghost use Rattle.rtio_types.specs.Requests.{is_well_formed};
ghost use Rattle.rtio_core.specs.Calls.{NoOtherWaits};
ghost use Rattle.rtio_core.specs.Lawful.{IsOpenFor};
ghost use Rattle.lab_kernels.specs.Decided.{IsDecided, IsHeldUp, WaitsFor};

use crate::turn::ask_stopped;
use core_session::Turn;
use rtio_core::Core;
use rtio_types::{Reply, Request};
use std::alloc::{AllocError, Global};

/// Asks a request of chair `who`, whose session is open and which has no other request waiting, until it is decided. None where
/// it isn't decided at the horizon.
pub fn ask_until_decided(
    alloc: Global,
    core: &mut Core,
    who: u32,
    request: Request,
) -> Result<Option<Reply>, AllocError>
    requires open { IsOpenFor who core.old.history }
    requires formed { IsTrue (is_well_formed request) }
    requires free { NoOtherWaits core.old.waiting request }
    ensures decided { IfOk result (λ reply. IsDecided core.old who request reply core.new) }
    // At the horizon it waits.
    ensures waits { IfOk result (λ reply. reply ≡ None → WaitsFor core.new request) }
    ensures err { OnErr result (IsHeldUp core.old request core.new) }
{
    let mut asked = request;
    loop {
        match ask_stopped(alloc, core, who, asked)? {
            Turn::Replied(reply) => return Ok(Some(reply)),
            Turn::Again(request) => asked = request,
            Turn::Over => return Ok(None),
        }
    }
}
