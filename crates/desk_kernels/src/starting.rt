// How a session starts at a desk.

ghost use Rattle.std.specs.Prelude.{◌≡◌, IfOk, None, OnErr, OnOk};
ghost use Rattle.rtio_core.specs.Calls.{started};
ghost use Rattle.rtio_core.specs.Core.{IsCore};
ghost use Rattle.rtio_core.specs.Entries.{last_cursor, open_session};
ghost use Rattle.desk_kernels.specs.Chairs.{IsAt};
ghost use Rattle.desk_kernels.specs.Holdings.{GoesOn, HasStarted, Opens, OpensCore};

use desk::{Chair, Desk};
use rtio_core::{Core, StartEnd, StartOf};
use std::alloc::{AllocError, Global};
use std::sync::Wait;
use std::thread;

/// What became of a try to start a session.
#[derive(Drop)]
pub(crate) enum Opening {
    /// It has begun at this cursor (mu).
    Begun(i64),
    /// Another is open, and what it was for is handed back.
    Busy(StartOf),
}

/// Tries until no session is open, starts one, and answers its cursor (mu). That it ever starts is not promised. The only error is
/// want of memory, and then the chair has put nothing.
pub(crate) fn start<R: Wait>(
    rt: &R,
    alloc: Global,
    desk: &Desk<Core>,
    chair: &mut Chair<Core>,
    of: StartOf,
) -> Result<i64, AllocError>
    requires at { IsAt desk.now chair.old }
    ensures goes { GoesOn desk.now chair.old chair.new }
    ensures started { IfOk result (λ cursor. HasStarted desk.now chair.old of cursor chair.new) }
    ensures err { OnErr result (chair.new.own ≡ chair.old.own) }
{
    let mut for_step = of;
    for _ in rt.forever() {
        match try_start(rt, alloc, desk, chair, for_step)? {
            Opening::Begun(cursor) => return Ok(cursor),
            Opening::Busy(back) => for_step = back,
        }
        thread::yield_now();
    }
    unreachable!()
}

// One holding: starts the session where none is open.
fn try_start<R: Wait>(
    rt: &R,
    alloc: Global,
    desk: &Desk<Core>,
    chair: &mut Chair<Core>,
    of: StartOf,
) -> Result<Opening, AllocError>
    requires at { IsAt desk.now chair.old }
    ensures goes { GoesOn desk.now chair.old chair.new }
    ensures opens { IfOk result (λ opening. Opens desk.now chair.old of opening chair.new) }
    ensures err { OnErr result (chair.new.own ≡ chair.old.own) }
{
    let who = chair.number();
    let mut held = desk.take(rt, chair);
    let opening = open(alloc, held.value(), who, of);
    desk.put(chair, held);
    opening
}

// Starts the session on the core that is held, where none is open.
fn open(alloc: Global, core: &mut Core, who: u32, of: StartOf) -> Result<Opening, AllocError>
    ensures known { IsCore core.old × IsCore core.new }
    ensures opens { IfOk result (λ opening. OpensCore core.old who of opening core.new) }
    ensures err { OnErr result (core.new ≡ core.old) }
{
    let _before = core.history();
    let opening = if core.session().is_some() {
        Ok(Opening::Busy(of))
    } else {
        match core.start(alloc, who, of) {
            Ok(cursor) => Ok(Opening::Begun(cursor)),
            Err(StartEnd::Memory) => Err(AllocError),
            Err(StartEnd::Busy { .. }) => unreachable!(),
        }
    };
    let _after = core.history();
    opening
}
