// Where a pair is put into a list in order.

ghost use Rattle.std.specs.Prelude.{◌≡◌, ◌≤◌, ◌<◌, ◌+◌, ◌-◌, ◌++◌, ◌∷◌, drop, length, take};
ghost use Rattle.output_merge.specs.Places.{stands_before};
ghost use Rattle.sed_lanes.specs.Sorting.{inserted};

use rtio_types::{Event, cycle_of};
use sed_lanes::Heads;

/// The order of a list of events.
#[derive(Clone, Copy, Debug, PartialEq, Eq)]
pub enum Order {
    /// By stamp, and then by channel: the order in which events are put out.
    PutOut,
    /// By cycle, then by channel, then by number: the order in which collisions are logged.
    Logged,
}

impl Order {
    // Whether one pair stands before another.
    fn is_before(self, one: (u64, Event), other: (u64, Event)) -> bool
        ensures { result ≡ stands_before self one other }
    {
        match self {
            Order::PutOut => {
                one.1.stamp < other.1.stamp
                    || (one.1.stamp == other.1.stamp && one.1.channel < other.1.channel)
            }
            Order::Logged => {
                let (cycle, later) = (cycle_of(&one.1), cycle_of(&other.1));
                cycle < later
                    || (cycle == later
                        && (one.1.channel < other.1.channel
                            || (one.1.channel == other.1.channel && one.0 < other.0)))
            }
        }
    }
}

// The place of a pair among those from a place on: that of the first of them that doesn't stand before it.
fn place_of(into: &Heads, from: u32, order: Order, pair: (u64, Event)) -> u32
    requires { from ≤ length into.now.items }
    ensures within { result ≤ length into.now.items }
    ensures splits { take result into.now.items ++ pair ∷ drop result into.now.items
        ≡ take from into.now.items ++ inserted (stands_before order) pair (drop from into.now.items) }
{
    for at in from..into.len() {
        if !order.is_before(into.item(at), pair) {
            return at;
        }
    }
    into.len()
}

/// Puts a pair into a list whose first `from` pairs stay as they are, before the first of the others that doesn't stand
/// before it.
pub fn insert(into: &mut Heads, from: u32, order: Order, number: u64, event: Event)
    requires from { from ≤ length into.old.items }
    requires room { 0 < into.old.room }
    ensures items { into.new.items ≡ take from into.old.items ++ inserted (stands_before order) (number, event) (drop from into.old.items) }
    ensures len { length into.new.items ≡ length into.old.items + 1 }
    ensures room { into.new.room ≡ into.old.room - 1 }
{
    let at = place_of(into, from, order, (number, event));
    into.insert(at, number, event);
}
