// The slots of the frame that runs.

ghost use Rattle.std.specs.Prelude.{◌≡◌, ◌+◌, ◌<◌, ◌≤◌, length, take, drop, replicate, slice_get, slice_set, Some, IfOk};
ghost use Rattle.core_isa.specs.Machine.{with_slots};
ghost use Rattle.core_isa.specs.Steps.{with_array};

use crate::state::State;
use std::alloc::{AllocError, Global};

impl State {
    /// The value of a slot.
    pub fn slot(&self, index: usize) -> i64
        requires { index < length self.now.machine.top.slots }
        ensures { slice_get self.now.machine.top.slots index ≡ Some result }
    {
        self.slots.get(index)
    }

    /// Writes a slot.
    pub fn set_slot(&mut self, index: usize, value: i64)
        requires { index < length self.old.machine.top.slots }
        ensures { self.new ≡ record self.old {
          machine = with_slots self.old.machine (slice_set self.old.machine.top.slots index value);
        } }
    {
        self.slots.set(index, value);
    }

    /// The values of an array, which begins at a slot. The only error is want of memory.
    pub fn array(&self, alloc: Global, first: usize, count: usize) -> Result<Vec<i64>, AllocError>
        requires { first + count ≤ length self.now.machine.top.slots }
        ensures { IfOk result (λ values. values.items ≡ take count (drop first self.now.machine.top.slots)) }
    {
        self.slots.copy(alloc, first, count)
    }

    /// Writes one value into all elements of an array, which begins at a slot.
    pub fn fill(&mut self, first: usize, count: usize, value: i64)
        requires { first + count ≤ length self.old.machine.top.slots }
        ensures { self.new ≡ record self.old {
          machine = with_slots self.old.machine (with_array self.old.machine.top.slots first (replicate count value));
        } }
    {
        self.slots.overwrite(first, count, value);
    }
}
