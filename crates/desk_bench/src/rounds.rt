// Chairs that put numbers, each in a thread of its own.
ghost use Rattle.std.specs.Prelude.{◌≡◌, ℕ, ◌<◌, false, All, length, slice_index_or};
ghost use Rattle.desk.specs.Closing.{HasNumber};
ghost use Rattle.desk_bench.specs.Rounds.{IsSame, IsFree};

use crate::tally::Tally;
use desk::{Chair, Desk};
use std::alloc::AllocError;
use std::sync::Wait;
use std::thread;
use std::thread::Threads;

// Takes the value, adds a number, and puts it back.
fn put_one<R: Wait>(
    rt: &R,
    desk: &Desk<Tally>,
    chair: &mut Chair<Tally>,
    number: u32,
) -> Result<(), AllocError>
    requires of { chair.old.desk ≡ desk.now.id }
    requires free { chair.old.holds ≡ false }
    ensures { IsSame chair.old chair.new }
{
    let by = chair.number();
    let mut held = desk.take(rt, chair);
    let added = held.value().add(by, number);
    desk.put(chair, held);
    added
}

// Puts the numbers from 0 to `puts`, until there is no memory.
fn put_all<R: Wait>(rt: &R, desk: &Desk<Tally>, chair: &mut Chair<Tally>, puts: u32)
    requires of { chair.old.desk ≡ desk.now.id }
    requires free { chair.old.holds ≡ false }
    ensures { IsSame chair.old chair.new }
{
    for number in 0..puts {
        if put_one(rt, desk, chair, number).is_err() {
            return;
        }
    }
}

// Each chair puts its numbers in a thread of its own.
fn put_in_threads<R: Threads + Wait + Sync>(
    rt: &R,
    desk: &Desk<Tally>,
    chairs: &mut [Chair<Tally>],
    puts: u32,
)
    requires { All (IsFree desk.now.id) chairs.old }
    ensures { (i : ℕ) (d : _) → i < length chairs.old → IsSame (slice_index_or chairs.old i d) (slice_index_or chairs.new i d) }
{
    let count = chairs.len();
    if count == 0 {
        return;
    }
    thread::for_each_mut(
        rt,
        chairs,
        count,
        &|_, chair| {
            put_all(rt, desk, chair, puts);
        },
    );
}

/// Each chair puts its numbers in a thread of its own, and comes back.
pub fn put_rounds<R: Threads + Wait + Sync>(
    rt: &R,
    desk: &Desk<Tally>,
    mut chairs: Vec<Chair<Tally>>,
    puts: u32,
) -> Vec<Chair<Tally>>
    requires { All (IsFree desk.now.id) chairs.items }
    ensures of { All (IsFree desk.now.id) result.items }
    ensures numbers { (k : ℕ) → HasNumber chairs.items k → HasNumber result.items k }
{
    put_in_threads(rt, desk, chairs.as_mut_slice(), puts);
    chairs
}
