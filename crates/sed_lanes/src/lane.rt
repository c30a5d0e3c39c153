// One lane: a ring of the room that it got when it was made.

ghost use Rattle.std.specs.Prelude.{◌≡◌, ◌≤◌, ◌<◌, ◌+◌, ◌^◌, [], ◌∷◌, ◌++◌, IfOk, IsTrue, Some, None, filter, length, nat_le, ◌==◌, not, option_to_list};
ghost use Rattle.std.specs.List.{list_all};
ghost use Rattle.rtio_types.specs.Time.{cycle_of};
ghost use Rattle.sed_lanes.specs.Lanes.{is_later};
ghost use Rattle.sed_lanes.specs.Next.{first_cycle};
ghost use Rattle.sed_lanes.specs.Queue.{IsFirst};
ghost use Rattle.sed_lanes.specs.Rows.{are_rising, row_state};
ghost use Rattle.sed_lanes.specs.Verdict.{frees_at};

use crate::heads::Heads;
use crate::queue::Queue;
use rtio_types::{Event, cycle_of};
use std::alloc::{AllocError, Global};

/// The events that a lane holds, with their submission numbers, first come first, and the cycle of the last event that
/// it took, held or not.
#[derive(Debug, Drop)]
pub struct Lane {
    pub held: Queue,
    pub last: Option<u64>,
}

impl Lane {
    /// A lane that took nothing yet, with room for `depth` events.
    pub fn with_room(alloc: Global, depth: u32) -> Result<Lane, AllocError>
        ensures state { IfOk result (λ lane. row_state lane ≡ record { held = []; last = None }) }
        ensures room { IfOk result (λ lane. lane.held.capacity ≡ depth) }
    {
        Ok(Lane {
            held: Queue::with_capacity(alloc, depth as usize)?,
            last: None,
        })
    }

    /// Whether the lane holds as many events as it may.
    pub fn is_full(&self, depth: u32) -> bool
        ensures { result ≡ nat_le depth (length self.now.held.items) }
    {
        depth as usize <= self.held.len()
    }

    /// Whether an event of this cycle is later than the last one that the lane took.
    pub fn may_enter(&self, cycle: u64) -> bool
        ensures { result ≡ is_later self.now.last cycle }
    {
        match self.last {
            None => true,
            Some(last) => last < cycle,
        }
    }

    /// The cycle of the first held event, which frees a place; 0 if none is held.
    pub fn frees_at(&self) -> u64
        ensures { result ≡ frees_at (row_state self.now) }
    {
        let first = self.held.first();
        if first == u64::MAX { 0 } else { first }
    }

    /// The cycle of the first held event; `u64::MAX`, which no cycle is, if none is held.
    pub fn first(&self) -> u64
        ensures { IsFirst result (first_cycle (row_state self.now)) }
    {
        self.held.first()
    }

    /// Takes an event behind those that it holds.
    pub fn accept(&mut self, number: u64, event: Event)
        requires { length self.old.held.items < self.old.held.capacity }
        ensures held { self.new.held.items ≡ self.old.held.items ++ (number, event) ∷ [] }
        ensures last { self.new.last ≡ Some (cycle_of event) }
        ensures small { cycle_of event < 2 ^ 60 }
        ensures room { self.new.held.capacity ≡ self.old.held.capacity }
    {
        self.held.push_back(number, event);
        self.last = Some(cycle_of(&event));
    }

    /// Takes the event of this cycle out, if the lane holds one.
    pub fn take_at(&mut self, cycle: u64) -> Option<(u64, Event)>
        requires rising { IsTrue (are_rising self.old.held.items) }
        requires none_earlier { IsTrue (list_all (λ p. nat_le cycle (cycle_of p.1)) self.old.held.items) }
        ensures taken { option_to_list result ≡ filter (λ p. cycle_of p.1 == cycle) self.old.held.items }
        ensures left { self.new.held.items ≡ filter (λ p. not (cycle_of p.1 == cycle)) self.old.held.items }
        ensures last { self.new.last ≡ self.old.last }
        ensures room { self.new.held.capacity ≡ self.old.held.capacity }
    {
        if self.first() == cycle {
            self.held.pop_front()
        } else {
            None
        }
    }

    /// Moves the event of this cycle out, if the lane holds one.
    pub fn drain_into(&mut self, cycle: u64, into: &mut Heads)
        requires rising { IsTrue (are_rising self.old.held.items) }
        requires none_earlier { IsTrue (list_all (λ p. nat_le cycle (cycle_of p.1)) self.old.held.items) }
        requires room { 0 < into.old.room }
        ensures moved { into.new.items ≡ into.old.items ++ filter (λ p. cycle_of p.1 == cycle) self.old.held.items }
        ensures space { into.new.room + length into.new.items ≡ into.old.room + length into.old.items }
        ensures few { length into.new.items ≤ length into.old.items + 1 }
        ensures left { self.new.held.items ≡ filter (λ p. not (cycle_of p.1 == cycle)) self.old.held.items }
        ensures last { self.new.last ≡ self.old.last }
        ensures room { self.new.held.capacity ≡ self.old.held.capacity }
    {
        match self.take_at(cycle) {
            Some((number, event)) => into.push(number, event),
            None => (),
        }
    }

    /// Takes all held events out, first come first, and forgets the last cycle.
    pub fn empty_into(&mut self, into: &mut Heads)
        requires { length self.old.held.items ≤ into.old.room }
        ensures state { row_state self.new ≡ record { held = []; last = None } }
        ensures moved { into.new.items ≡ into.old.items ++ self.old.held.items }
        ensures left { into.new.room + length self.old.held.items ≡ into.old.room }
        ensures room { self.new.held.capacity ≡ self.old.held.capacity }
    {
        self.last = None;
        while let Some((number, event)) = self.held.pop_front() {
            into.push(number, event);
        }
    }
}
