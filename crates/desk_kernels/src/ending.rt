// How a session ends at a desk.

ghost use Rattle.std.specs.Prelude.{◌≡◌, IfOk, OnErr};
ghost use Rattle.rtio_core.specs.Core.{IsCore};
ghost use Rattle.rtio_core.specs.Lawful.{IsOpenFor};
ghost use Rattle.desk_kernels.specs.Chairs.{core_entries};
ghost use Rattle.desk_kernels.specs.Holdings.{EndsOrWaits, GoesOn, HasPutEnd, IsReady, MayPutEnd};

use desk::{Chair, Desk};
use rtio_core::Core;
use rtio_types::Outcome;
use std::alloc::{AllocError, Global};
use std::sync::Wait;
use std::thread;

/// Tries until no request waits, and ends the chair's open session with this cursor (mu). That it ever ends is not promised. The only
/// error is want of memory, and then the chair has put nothing.
pub(crate) fn end<R: Wait>(
    rt: &R,
    alloc: Global,
    desk: &Desk<Core>,
    chair: &mut Chair<Core>,
    outcome: Outcome,
    cursor: i64,
) -> Result<(), AllocError>
    requires ready { IsReady desk.now chair.old }
    requires open { IsOpenFor chair.old.number (core_entries chair.old.seen) }
    ensures goes { GoesOn desk.now chair.old chair.new }
    ensures ended { IfOk result (λ _. HasPutEnd chair.old outcome cursor chair.new) }
    ensures err { OnErr result (chair.new.seen ≡ chair.old.seen) }
{
    for _ in rt.forever() {
        if try_end(rt, alloc, desk, chair, outcome, cursor)? {
            return Ok(());
        }
        thread::yield_now();
    }
    unreachable!()
}

// One holding: ends the session where no request waits, and says whether it did.
fn try_end<R: Wait>(
    rt: &R,
    alloc: Global,
    desk: &Desk<Core>,
    chair: &mut Chair<Core>,
    outcome: Outcome,
    cursor: i64,
) -> Result<bool, AllocError>
    requires ready { IsReady desk.now chair.old }
    requires open { IsOpenFor chair.old.number (core_entries chair.old.seen) }
    ensures goes { GoesOn desk.now chair.old chair.new }
    ensures ended { IfOk result (λ done. MayPutEnd chair.old outcome cursor done chair.new) }
    ensures err { OnErr result (chair.new.seen ≡ chair.old.seen) }
{
    let who = chair.number();
    let mut held = desk.take(rt, chair);
    let core = held.value();
    let _known = core.history();
    let done = end_or_wait(alloc, core, who, outcome, cursor);
    desk.put(chair, held);
    done
}

// Ends the session on the core that is held, where no request waits.
fn end_or_wait(
    alloc: Global,
    core: &mut Core,
    who: u32,
    outcome: Outcome,
    cursor: i64,
) -> Result<bool, AllocError>
    requires open { IsOpenFor who core.old.history }
    ensures known { IsCore core.new }
    ensures ends { IfOk result (λ done. EndsOrWaits core.old who outcome cursor done core.new) }
    ensures err { OnErr result (core.new ≡ core.old) }
{
    let done = if core.waiting().is_some() {
        Ok(false)
    } else {
        match core.end(alloc, who, outcome, cursor) {
            Ok(()) => Ok(true),
            Err(_) => Err(AllocError),
        }
    };
    let _after = core.history();
    done
}
