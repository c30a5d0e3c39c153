// Recordings.

ghost use Rattle.std.specs.Prelude.{◌≡◌, ◌+◌, ◌<◌, ◌^◌, length, is_some, IsTrue, None};
ghost use Rattle.core_isa.specs.Steps.{act};
ghost use Rattle.core_isa.specs.declared.code.Code.{Code};
ghost use Rattle.core_isa.specs.declared.instr.Instr.TheVariants as I;
ghost use Rattle.core_cpu.specs.Courses.{TurnsTo};
ghost use Rattle.core_cpu.specs.declared.course.Course.TheVariants.{Silent};

use super::{name_of, onward, spent};
use crate::course::{Course, Way};
use crate::phase::Purpose;
use crate::state::State;
use core_isa::Code;
use std::alloc::Global;

/// Opens a recording of a name.
pub fn record(alloc: Global, code: &Code, state: &mut State, name: u16) -> Way
    requires closed { state.old.machine.recording ≡ None }
    requires name { name < length code.now.names }
    requires place { state.old.machine.top.place + 1 < 2 ^ 32 }
    ensures { TurnsTo (act code.now (I.Record name)) state.old (Silent result) state.new }
{
    let name = name_of(code, name);
    state.open_recording(alloc, name);
    onward(state)
}

/// Has the open recording kept, which is closed before.
pub fn save(state: &mut State) -> Course
    requires { IsTrue (is_some state.old.machine.recording) }
    ensures { (code : Code) → TurnsTo (act code I.Save) state.old result state.new }
{
    if state.take_unit() {
        Course::Asks(Purpose::Nothing, state.close_recording())
    } else {
        Course::Silent(spent(state))
    }
}
