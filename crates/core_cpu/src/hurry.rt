// Instructions in a row.

ghost use Rattle.core_isa.specs.Marks.{HasOrder};
ghost use Rattle.core_cpu.specs.Courses.{phase_after};
ghost use Rattle.core_cpu.specs.Hurrying.{Hurried};
ghost use Rattle.core_cpu.specs.Settled.{IsSettled};
ghost use Rattle.core_cpu.specs.declared.phase.Phase.TheVariants.{Ready};

use crate::course::Way;
use crate::quick::quick;
use crate::stack::Stack;
use crate::state::State;
use crate::step::line_at;
use core_isa::Code;
use std::alloc::Global;
use std::mem;

// Runs instructions from the one at its place on, up to one that may ask, raise or call.
fn run_quick(code: &Code, state: &mut State) -> Way
    requires order { HasOrder code.now }
    requires settled { IsSettled code.now state.old Ready }
    ensures { Hurried code.now state.old (phase_after result) state.new }
{
    let lines = code.lines.items();
    loop {
        let line = line_at(lines, state.place());
        match quick(code, state, &line.instr) {
            Some(Way::Goes) => state.within(),
            Some(way) => {
                state.within();
                return way;
            }
            None => return Way::Goes,
        }
    }
}

impl State {
    /// The same. The state is moved out meanwhile, so that its numbers stay in registers.
    pub fn hurry(&mut self, alloc: Global, code: &Code) -> Way
        requires order { HasOrder code.now }
        requires settled { IsSettled code.now self.old Ready }
        ensures { Hurried code.now self.old (phase_after result) self.new }
    {
        let callers = mem::replace(&mut self.callers, Stack::none(alloc));
        let slots = mem::replace(&mut self.slots, Stack::none(alloc));
        let operands = mem::replace(&mut self.operands, Stack::none(alloc));
        let handlers = mem::replace(&mut self.handlers, Stack::none(alloc));
        let recording = self.recording.take();
        let mut moved = State {
            here: self.here,
            callers,
            slots,
            operands,
            handlers,
            cursor: self.cursor,
            units: self.units,
            steps: self.steps,
            recording,
            width: self.width,
        };
        let way = run_quick(code, &mut moved);
        *self = moved;
        way
    }
}
