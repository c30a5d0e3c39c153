// The cursor, the units, the count of instructions and the place.

ghost use Rattle.std.specs.Prelude.{◌≡◌, ◌+◌, ◌-◌, ◌<◌, ◌≤◌, ◌^◌, min, suc, true, false};
ghost use Rattle.core_isa.specs.Machine.{at_place};
ghost use Rattle.core_cpu.specs.Roots.{root_place};

use crate::state::State;

impl State {
    /// The place of the instruction at hand.
    pub fn place(&self) -> u32
        ensures { result ≡ self.now.machine.top.place }
    {
        self.here.place
    }

    /// The place of the call under which it runs, in the function that the run began with; none where that one runs itself.
    #[tactic(auto, using(crate::proofs::Roots::root_below))]
    pub fn root(&self) -> Option<u32>
        ensures { result ≡ root_place self.now.machine }
    {
        let count = self.callers.count();
        if count == 0 {
            None
        } else {
            Some(self.callers.get(count - 1).place)
        }
    }

    /// Goes to a place of the function that runs.
    pub fn go_to(&mut self, place: u32)
        ensures { self.new ≡ record self.old { machine = at_place self.old.machine place } }
    {
        self.here.place = place;
    }

    /// Sets the cursor, in mu.
    pub fn set_cursor(&mut self, cursor: i64)
        ensures { self.new ≡ record self.old { machine = record self.old.machine { cursor = cursor } } }
    {
        self.cursor = cursor;
    }

    /// Counts an instruction.
    pub fn count(&mut self)
        ensures { self.new ≡ record self.old { machine = record self.old.machine { steps = min (self.old.machine.steps + 1) (2 ^ 64 - 1) } } }
    {
        self.steps = self.steps.saturating_add(1);
    }

    /// Takes a unit, if there is one.
    pub fn take_unit(&mut self) -> bool
        ensures taken { result ≡ true → self.old ≡ record self.new { machine = record self.new.machine { units = suc self.new.machine.units } } }
        ensures none { result ≡ false → (self.old.machine.units ≡ 0) × (self.new ≡ self.old) }
    {
        if self.units == 0 {
            return false;
        }
        self.units -= 1;
        true
    }

    /// Takes one of the units that are left.
    pub fn use_unit(&mut self)
        requires { 1 ≤ self.old.machine.units }
        ensures { self.old ≡ record self.new { machine = record self.new.machine { units = suc self.new.machine.units } } }
    {
        self.units -= 1;
    }
}
