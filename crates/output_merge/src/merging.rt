// The merge of one cycle's events.

ghost use Rattle.std.specs.Prelude.{◌≡◌, ◌≤◌, ◌<◌, ◌+◌, ◌-◌, ◌++◌, [], ℕ, IsTrue, drop, if◌then◌else◌, length, nat_eq, take};
ghost use Rattle.std.specs.List.{IsDistinct};
ghost use Rattle.std.specs.Map.{keys_of};
ghost use Rattle.sed_lanes.specs.Heads.{by_number};
ghost use Rattle.output_merge.specs.Groups.{keepers, collisions};
ghost use Rattle.output_merge.specs.Merge.{are_of_cycle};
ghost use Rattle.output_merge.specs.Places.{stands_before};
ghost use Rattle.sed_lanes.specs.Sorting.{inserted};
ghost use Rattle.rtio_types.specs.declared.event.Event.{Event};

use crate::group::{group_of, part_in};
use crate::place::{Order, insert};
use rtio_types::Event;
use sed_lanes::Heads;

// Puts a pair into a list in order if its part is this one.
fn insert_if(is_wanted: bool, into: &mut Heads, from: u32, order: Order, number: u64, event: Event)
    requires from { from ≤ length into.old.items }
    requires room { 0 < into.old.room }
    ensures items { into.new.items ≡ take from into.old.items ++ (if is_wanted
        then inserted (stands_before order) (number, event) (drop from into.old.items)
        else drop from into.old.items) }
    ensures room { into.new.room + length into.new.items ≡ into.old.room + length into.old.items }
    ensures few { length into.new.items ≤ length into.old.items + 1 }
{
    if is_wanted {
        insert(into, from, order, number, event);
    }
}

// Moves an event that is alone in its cycle: it is put out.
fn keep_alone(heads: &mut Heads, kept: &mut Heads)
    requires alone { length heads.old.items ≡ 1 }
    requires room { 0 < kept.old.room }
    ensures kept { kept.new ≡ record { items = kept.old.items ++ heads.old.items; room = kept.old.room - 1 } }
    ensures heads { heads.new ≡ record { items = []; room = heads.old.room + length heads.old.items } }
{
    let (number, event) = heads.item(0);
    kept.push(number, event);
    heads.clear();
}

/// Sorts the events of one cycle out (ARTIQ manual, "RTIO": replacement and collision). On a channel that replaces, the
/// last event of the first one's stamp is put out, and overrides the others of that stamp; on another channel the first
/// is put out. All others collide. Those that are put out come behind what `kept` has, by stamp and channel, those that
/// collide behind what `collided` has, by channel and number; overridden ones are dropped, and `heads` is left empty.
pub fn merge(heads: &mut Heads, kept: &mut Heads, collided: &mut Heads)
    requires one_cycle { (cycle : ℕ) × IsTrue (are_of_cycle cycle heads.old.items) }
    requires numbers { IsDistinct nat_eq (keys_of heads.old.items) }
    requires kept_room { length heads.old.items ≤ kept.old.room }
    requires collided_room { length heads.old.items ≤ collided.old.room }
    ensures kept { kept.new.items ≡ kept.old.items ++ keepers (by_number heads.old.items) }
    ensures kept_room { kept.new.room + length kept.new.items ≡ kept.old.room + length kept.old.items }
    ensures collided { collided.new.items ≡ collided.old.items ++ collisions (by_number heads.old.items) }
    ensures collided_room { collided.new.room + length collided.new.items ≡ collided.old.room + length collided.old.items }
    ensures heads { heads.new ≡ record { items = []; room = heads.old.room + length heads.old.items } }
{
    if heads.len() == 1 {
        keep_alone(heads, kept);
        return;
    }
    heads.sort_by_number();
    let kept_before = kept.len();
    let collided_before = collided.len();
    let mut left = heads.len();
    while left > 0 {
        left -= 1;
        let (number, event) = heads.item(left);
        let part = part_in(group_of(heads, event.channel), number, &event);
        insert_if(
            part.is_keeper(),
            kept,
            kept_before,
            Order::PutOut,
            number,
            event,
        );
        insert_if(
            part.is_collision(),
            collided,
            collided_before,
            Order::Logged,
            number,
            event,
        );
    }
    heads.clear();
}
