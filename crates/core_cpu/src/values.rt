// The operands of the frame that runs.

ghost use Rattle.std.specs.Prelude.{◌≡◌, ◌<◌, ◌≤◌, [], ◌∷◌, length, slice_get, Some};
ghost use Rattle.core_isa.specs.Machine.{with_operands};

use crate::state::State;

impl State {
    /// The topmost operand.
    pub fn operand(&self) -> i64
        requires { 1 ≤ length self.now.machine.top.operands }
        ensures { slice_get self.now.machine.top.operands 0 ≡ Some result }
    {
        self.operands.get(0)
    }

    /// Puts an operand on top.
    pub fn push(&mut self, value: i64)
        requires { length self.old.machine.top.operands < 255 }
        ensures { self.new ≡ record self.old { machine = with_operands self.old.machine (value ∷ self.old.machine.top.operands) } }
    {
        self.operands.push(value);
        self.here.height += 1;
    }

    /// Takes the topmost operand.
    pub fn pop(&mut self) -> i64
        requires { 1 ≤ length self.old.machine.top.operands }
        ensures { self.old ≡ record self.new { machine = with_operands self.new.machine (result ∷ self.new.machine.top.operands) } }
    {
        let value = self.operands.get(0);
        self.operands.cut(1);
        self.here.height -= 1;
        value
    }

    /// Takes all operands off.
    pub fn clear(&mut self)
        ensures { self.new ≡ record self.old { machine = with_operands self.old.machine [] } }
    {
        self.operands.cut(self.here.height);
        self.here.height = 0;
    }
}
