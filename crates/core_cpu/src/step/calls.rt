// Calls and returns.

ghost use Rattle.std.specs.Prelude.{◌≡◌, ◌+◌, ◌<◌, ◌≤◌, ◌^◌, length, true};
ghost use Rattle.core_isa.specs.Marks.{values_of};
ghost use Rattle.core_isa.specs.Steps.{act, call};
ghost use Rattle.core_isa.specs.declared.code.Code.{Code};
ghost use Rattle.core_isa.specs.declared.instr.Instr.TheVariants as I;
ghost use Rattle.core_cpu.specs.Courses.{TurnsTo};
ghost use Rattle.core_cpu.specs.Returning.{CanLeave};
ghost use Rattle.core_cpu.specs.declared.course.Course.TheVariants.{Silent};

use super::{gives, onward, raises, spent};
use crate::course::Way;
use crate::state::State;
use core_isa::CodeFunction;
use rtio_types::Exc;

/// Calls a function.
pub fn enter(state: &mut State, function: CodeFunction) -> Way
    requires arguments { function.params ≤ length state.old.machine.top.operands }
    requires parameters { function.params ≤ function.slots }
    requires slots { function.slots ≤ state.old.width }
    ensures { TurnsTo (call function) state.old (Silent result) state.new }
{
    if !state.take_unit() {
        return spent(state);
    }
    if !state.has_room() {
        return raises(state, Exc::StackOverflow);
    }
    state.enter(function);
    Way::Goes
}

/// Ends the frame that runs, with its value if it has one.
pub fn leave(state: &mut State) -> Way
    requires value { values_of state.old.machine.top.function ≤ length state.old.machine.top.operands }
    requires callers { CanLeave (values_of state.old.machine.top.function) state.old.machine.callers }
    ensures { (code : Code) → TurnsTo (act code I.Return) state.old (Silent result) state.new }
{
    if state.function().value {
        let value = state.pop();
        if state.leave() {
            gives(state, value)
        } else {
            Way::Returned
        }
    } else if state.leave() {
        onward(state)
    } else {
        Way::Returned
    }
}
