// Frames that come and go.

ghost use Rattle.std.specs.Prelude.{◌≡◌, ◌+◌, ◌<◌, ◌≤◌, [], ◌∷◌, length, take, reverse, nat_lt, true, false};
ghost use Rattle.core_isa.specs.Machine.{at_frame};
ghost use Rattle.core_isa.specs.Steps.{enter, without_arguments};
ghost use Rattle.core_cpu.specs.Layout.{IsHeld};

use crate::layout::Activation;
use crate::state::State;
use core_isa::CodeFunction;

impl State {
    /// The function that runs.
    pub fn function(&self) -> CodeFunction
        ensures { result ≡ self.now.machine.top.function }
    {
        self.here.function
    }

    /// Whether there is room for one more frame.
    pub fn has_room(&self) -> bool
        ensures { result ≡ nat_lt (length self.now.machine.callers + 1) 64 }
    {
        self.callers.count() < 63
    }

    /// Enters a function with the topmost operands as its arguments, the last one on top.
    pub fn enter(&mut self, function: CodeFunction)
        requires room { length self.old.machine.callers < 63 }
        requires arguments { function.params ≤ length self.old.machine.top.operands }
        requires parameters { function.params ≤ function.slots }
        requires slots { function.slots ≤ self.old.width }
        ensures { self.new ≡ record self.old {
          machine = at_frame
              (enter function (reverse (take function.params self.old.machine.top.operands)))
              (without_arguments function self.old.machine.top ∷ self.old.machine.callers)
              self.old.machine;
        } }
    {
        let params = function.params as usize;
        self.callers.push(Activation {
            height: self.here.height - params,
            ..self.here
        });
        self.slots.fill(function.slots as usize - params, 0);
        self.slots.take_over(&mut self.operands, params);
        self.here = Activation {
            function,
            place: function.first,
            height: 0,
            tries: 0,
        };
    }

    /// Ends the frame that runs, and goes on with its caller's, if there is one.
    pub fn leave(&mut self) -> bool
        ensures caller { result ≡ true → self.old.machine.callers ≡ self.new.machine.top ∷ self.new.machine.callers }
        ensures left { result ≡ true → self.new ≡ record self.old {
          machine = at_frame self.new.machine.top self.new.machine.callers self.old.machine;
        } }
        ensures last { result ≡ false → self.old.machine.callers ≡ [] }
        ensures same { result ≡ false → self.new ≡ self.old }
    {
        if self.callers.count() == 0 {
            return false;
        }
        self.slots.cut(self.here.function.slots as usize);
        self.operands.cut(self.here.height);
        self.handlers.cut(self.here.tries);
        self.here = self.callers.get(0);
        self.callers.cut(1);
        true
    }

    /// There are at most 64 frames, each with at most 255 operands and handlers.
    pub fn within(&self)
        ensures { IsHeld self.now }
    {
        let _ = &self.here;
    }
}
