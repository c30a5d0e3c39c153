// The events of a lane in their ring, and the first one's cycle at hand.

ghost use Rattle.std.specs.Prelude.{◌≡◌, ◌≤◌, ◌<◌, ◌^◌, [], ◌∷◌, ◌++◌, IfOk, drop, length, slice_get};
ghost use Rattle.circular_buffer.specs.Buffer.{buffer};
ghost use Rattle.sed_lanes.specs.Queue.{IsFirst, front_cycle};

use circular_buffer::HeapCircularBuffer;
use rtio_types::{Event, cycle_of};
use std::alloc::{AllocError, Global};
use std::marker::Model;

/// The events that a lane holds, with their submission numbers, first come first. The cycle of the first one is kept
/// beside them, so that whoever asks for it each cycle need not look into the ring.
#[derive(Debug, Drop)]
pub struct Queue {
    ring: HeapCircularBuffer<(u64, Event)>,
    first: u64,
}

impl Model for Queue {
    ghost use Rattle.std.specs.Prelude.{ℕ};
    ghost use Rattle.circular_buffer.specs.Buffer.{Buffer};
    ghost use Rattle.rtio_types.specs.declared.event.Event.{Event};
    ghost use Rattle.sed_lanes.specs.Queue.{IsFirst, front_cycle};

    ghost Value = { Buffer (ℕ × Event) };

    ghost view = { λ q. q.ring };

    ghost invariant = { λ q. IsFirst q.first (front_cycle q.ring.items) };
}

impl Queue {
    /// No event, and room for so many.
    pub fn with_capacity(alloc: Global, capacity: usize) -> Result<Queue, AllocError>
        ensures { IfOk result (λ queue. queue ≡ buffer [] capacity) }
    {
        Ok(Queue {
            ring: HeapCircularBuffer::with_capacity(alloc, capacity)?,
            first: u64::MAX,
        })
    }

    /// How many events it holds.
    pub fn len(&self) -> usize
        ensures len { result ≡ length self.now.items }
        ensures within { (result ≤ self.now.capacity) × (self.now.capacity < 2 ^ 63) }
    {
        self.ring.len()
    }

    /// The cycle of the first event; `u64::MAX`, which no cycle is, if it holds none.
    pub fn first(&self) -> u64
        ensures { IsFirst result (front_cycle self.now.items) }
    {
        self.first
    }

    /// Adds an event at the end.
    pub fn push_back(&mut self, number: u64, event: Event)
        requires { length self.old.items < self.old.capacity }
        ensures { self.new ≡ buffer (self.old.items ++ (number, event) ∷ []) self.old.capacity }
    {
        if self.first == u64::MAX {
            self.first = cycle_of(&event);
        }
        self.ring.push_back((number, event));
    }

    /// Takes the first event out, if it holds one.
    pub fn pop_front(&mut self) -> Option<(u64, Event)>
        ensures value { result ≡ slice_get self.old.items 0 }
        ensures items { self.new ≡ buffer (drop 1 self.old.items) self.old.capacity }
    {
        let taken = self.ring.pop_front();
        self.first = first_of(&self.ring);
        taken
    }
}

// The cycle of the first event of a ring; u64::MAX if the ring is empty.
fn first_of(ring: &HeapCircularBuffer<(u64, Event)>) -> u64
    ensures { IsFirst result (front_cycle ring.now.items) }
{
    match ring.front() {
        None => u64::MAX,
        Some((_, event)) => cycle_of(event),
    }
}
