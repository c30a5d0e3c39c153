// What a worker does where the jobs of others have to be reported first.

ghost use Rattle.std.specs.Prelude.{◌≡◌, length};
ghost use Rattle.desk_kernels.specs.Chairs.{IsAt};
ghost use Rattle.lab_workers.specs.Idling.{AreAt, HasWaited, HaveWaited};

use desk::{Chair, Desk};
use rtio_core::Core;
use std::sync::Wait;
use std::thread;

// How many cycles a core goes on while it is held once, at most.
const MOST_TICKS: u64 = 4_096;

// How often a worker with nothing to do gives the processor away before it asks again.
const TIMES_GIVEN_WAY: u32 = 256;

/// Lets each core tick on: takes it, lets it go on up to where it stops, 4,096 cycles at most, and puts it back.
pub(crate) fn let_all_tick<R: Wait>(rt: &R, desks: &[Desk<Core>], chairs: &mut [Chair<Core>])
    requires count { length chairs.old ≡ length desks.now }
    requires at { AreAt desks.now chairs.old }
    ensures { HaveWaited chairs.old chairs.new }
{
    let mut place = 0;
    while place < chairs.len() {
        let_tick(rt, &desks[place], &mut chairs[place]);
        place += 1;
    }
}

// Lets one core tick on.
fn let_tick<R: Wait>(rt: &R, desk: &Desk<Core>, chair: &mut Chair<Core>)
    requires { IsAt desk.now chair.old }
    ensures { HasWaited chair.old chair.new }
{
    let mut held = desk.take(rt, chair);
    let core = held.value();
    let _known = core.history();
    core.leap(MOST_TICKS);
    desk.put(chair, held);
}

/// Gives the processor away for a while, so that a worker with nothing to do seldom takes a desk from those that have.
pub(crate) fn give_way() {
    for _ in 0..TIMES_GIVEN_WAY {
        thread::yield_now();
    }
}
