// Channels that are busy executing an event.

ghost use Rattle.std.specs.Prelude.{◌≡◌, ◌≤◌, ◌<◌, ◌+◌, ◌++◌, [], ℕ, List, IsTrue, filter, length, not};
ghost use Rattle.rtio_types.specs.declared.event.Event.{Event};
ghost use Rattle.sed_lanes.specs.Sorting.{sorted};
ghost use Rattle.output_merge.specs.Groups.{is_logged_before};
ghost use Rattle.output_merge.specs.Merge.{are_of_cycle};
ghost use Rattle.output_merge.specs.Sieve.{IsSieved, are_before, held_by, holds_after, is_held};

use crate::place::{Order, insert};
use limits::CHANNELS;
use rtio_types::{Event, cycle_of};
use sed_lanes::Heads;
use std::marker::Model;

/// How long each channel executes an event, and since when: what decides which events find it busy. The ARTIQ manual calls
/// that error busy; the holds are this project's own.
#[derive(Debug, Drop)]
pub struct Holds {
    holds: [u32; CHANNELS],
    free_from: [u64; CHANNELS],
}

impl Model for Holds {
    ghost use Rattle.output_merge.specs.Sieve.{HoldsState};

    ghost Value = { HoldsState };

    ghost view = { λ h. record { holds = h.holds; free_from = h.free_from } };
}

// Takes the events out whose channels are busy in the cycle.
fn take_busy(free_from: &[u64; CHANNELS], cycle: u64, kept: &mut Heads, busy: &mut Heads)
    requires busy_room { length kept.old.items ≤ busy.old.room }
    ensures kept { kept.new.items ≡ filter (λ p. not (is_held free_from.now cycle p.1)) kept.old.items }
    ensures busy { busy.new.items ≡ busy.old.items ++ sorted is_logged_before (filter (λ p. is_held free_from.now cycle p.1) kept.old.items) }
    ensures kept_room { kept.new.room + length kept.new.items ≡ kept.old.room + length kept.old.items }
    ensures busy_room { busy.new.room + length busy.new.items ≡ busy.old.room + length busy.old.items }
{
    let busy_before = busy.len();
    let mut left = kept.len();
    while left > 0 {
        left -= 1;
        let (number, event) = kept.item(left);
        if is_held(free_from, cycle, &event) {
            kept.remove(left);
            insert(busy, busy_before, Order::Logged, number, event);
        }
    }
}

// Whether the event's channel is busy in the cycle.
fn is_held(free_from: &[u64; CHANNELS], cycle: u64, event: &Event) -> bool
    ensures { result ≡ is_held free_from.now cycle event.now }
{
    match free_from.get(event.channel as usize) {
        Some(from) => cycle < *from,
        None => false,
    }
}

impl Holds {
    /// The holds of the channels, in cycles, none of which has executed an event.
    pub fn new(holds: &[u32; CHANNELS]) -> Holds
        ensures { result ≡ holds_after holds.now [] }
    {
        Holds {
            holds: *holds,
            free_from: [0; CHANNELS],
        }
    }

    /// Takes the busy ones out of the keepers of one cycle: those whose channel executed an event less than its hold in
    /// cycles before. They come behind what `busy` has, by channel and number, and keep no channel busy themselves. What
    /// stays in `kept` is put out. No earlier call had a cycle as great.
    pub fn sieve(&mut self, cycle: u64, kept: &mut Heads, busy: &mut Heads)
        requires one_cycle { IsTrue (are_of_cycle cycle kept.old.items) }
        requires busy_room { length kept.old.items ≤ busy.old.room }
        ensures sieved { (holds : List ℕ) (out : List (ℕ × Event)) → self.old ≡ holds_after holds out → IsTrue (are_before cycle out)
            → IsSieved holds out kept.old busy.old self.new kept.new busy.new }
        ensures kept_room { kept.new.room + length kept.new.items ≡ kept.old.room + length kept.old.items }
        ensures busy_room { busy.new.room + length busy.new.items ≡ busy.old.room + length busy.old.items }
    {
        if kept.len() == 1 {
            self.sieve_alone(cycle, kept, busy);
            return;
        }
        take_busy(&self.free_from, cycle, kept, busy);
        self.hold_all(kept);
    }

    // Takes the only keeper of a cycle out if it is busy, and has its channel execute it if not.
    fn sieve_alone(&mut self, cycle: u64, kept: &mut Heads, busy: &mut Heads)
        requires alone { length kept.old.items ≡ 1 }
        requires one_cycle { IsTrue (are_of_cycle cycle kept.old.items) }
        requires busy_room { 0 < busy.old.room }
        ensures sieved { (holds : List ℕ) (out : List (ℕ × Event)) → self.old ≡ holds_after holds out → IsTrue (are_before cycle out)
            → IsSieved holds out kept.old busy.old self.new kept.new busy.new }
        ensures kept_room { kept.new.room + length kept.new.items ≡ kept.old.room + length kept.old.items }
        ensures busy_room { busy.new.room + length busy.new.items ≡ busy.old.room + length busy.old.items }
    {
        let (number, event) = kept.item(0);
        if is_held(&self.free_from, cycle, &event) {
            kept.clear();
            busy.push(number, event);
        } else {
            self.hold(&event);
        }
    }

    // Has the channels of events execute them.
    fn hold_all(&mut self, kept: &Heads)
        ensures { (holds : List ℕ) (out : List (ℕ × Event)) → self.old ≡ holds_after holds out
            → self.new ≡ holds_after holds (out ++ kept.now.items) }
    {
        for i in 0..kept.len() {
            let (_, event) = kept.item(i);
            self.hold(&event);
        }
    }

    // Has the event's channel execute it.
    fn hold(&mut self, event: &Event)
        ensures { self.new ≡ held_by self.old event.now }
    {
        let channel = event.channel as usize;
        if channel < CHANNELS {
            let from = cycle_of(event) + u64::from(self.holds[channel]);
            self.free_from[channel] = self.free_from[channel].max(from);
        }
    }
}
