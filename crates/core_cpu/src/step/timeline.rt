// The cursor.

ghost use Rattle.std.specs.Prelude.{◌≡◌};
ghost use Rattle.core_isa.specs.Steps.{act};
ghost use Rattle.core_isa.specs.declared.code.Code.{Code};
ghost use Rattle.core_isa.specs.declared.instr.Instr.TheVariants as I;
ghost use Rattle.core_cpu.specs.Courses.{Fits, TurnsTo};
ghost use Rattle.core_cpu.specs.declared.course.Course.TheVariants.{Silent};

use super::{gives, onward};
use crate::course::Way;
use crate::state::State;
use word_arithmetic::moved_on;

/// Puts the cursor upon the operands.
pub fn now(state: &mut State) -> Way
    requires { Fits 0 1 state.old }
    ensures { (code : Code) → TurnsTo (act code I.Now) state.old (Silent result) state.new }
{
    let cursor = state.cursor();
    gives(state, cursor)
}

/// Sets the cursor to the topmost operand.
pub fn at(state: &mut State) -> Way
    requires { Fits 1 0 state.old }
    ensures { (code : Code) → TurnsTo (act code I.At) state.old (Silent result) state.new }
{
    let cursor = state.pop();
    state.set_cursor(cursor);
    onward(state)
}

/// Moves the cursor on by the topmost operand.
pub fn delay(state: &mut State) -> Way
    requires { Fits 1 0 state.old }
    ensures { (code : Code) → TurnsTo (act code I.Delay) state.old (Silent result) state.new }
{
    let time = state.pop();
    let cursor = moved_on(state.cursor(), time);
    state.set_cursor(cursor);
    onward(state)
}
