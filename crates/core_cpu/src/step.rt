// One instruction.

ghost use Rattle.std.specs.Prelude.{◌≡◌, ◌+◌, ◌<◌, ◌^◌, length, slice_get, Some, None};
ghost use Rattle.core_isa.specs.Machine.{budget, drop_recording, ends, next, push, raise, request_then};
ghost use Rattle.core_cpu.specs.Courses.{TurnsTo};
ghost use Rattle.core_cpu.specs.Moments.{take_reply};
ghost use Rattle.core_cpu.specs.declared.course.Course.TheVariants.{Silent};
ghost use Rattle.core_cpu.specs.declared.course.Way.TheVariants.{Goes};

pub mod calls;
pub mod control;
pub mod frequent;
pub mod operators;
pub mod outputs;
pub mod recordings;
pub mod requests;
pub mod slots;
pub mod timeline;

use crate::course::{Course, Way};
use crate::phase::Purpose;
use crate::state::State;
use core_isa::{Code, CodeFunction, CodeLine};
use rtio_types::{Exc, Name, Request};

/// Goes on at the next place.
pub fn onward(state: &mut State) -> Way
    requires { state.old.machine.top.place + 1 < 2 ^ 32 }
    ensures turns { TurnsTo next state.old (Silent result) state.new }
    ensures goes { result ≡ Goes }
{
    state.go_to(state.place() + 1);
    Way::Goes
}

/// Goes on at the next place with a value upon the operands.
pub fn gives(state: &mut State, value: i64) -> Way
    requires room { length state.old.machine.top.operands < 255 }
    requires place { state.old.machine.top.place + 1 < 2 ^ 32 }
    ensures turns { TurnsTo (push value) state.old (Silent result) state.new }
    ensures goes { result ≡ Goes }
{
    state.push(value);
    onward(state)
}

/// Raises an exception.
pub fn raises(state: &mut State, exception: Exc) -> Way
    ensures { TurnsTo (raise exception) state.old (Silent result) state.new }
{
    if state.raise(exception) {
        Way::Goes
    } else {
        Way::Raised(exception)
    }
}

/// Ends the run where no unit is left.
pub fn spent(state: &mut State) -> Way
    ensures { TurnsTo (λ m. ends budget (drop_recording m)) state.old (Silent result) state.new }
{
    state.drop_recording();
    Way::Spent
}

/// Takes a unit and asks a request.
pub fn asks(state: &mut State, purpose: Purpose, request: Request) -> Course
    requires { state.old.machine.recording ≡ None }
    ensures { TurnsTo (request_then request (take_reply purpose)) state.old result state.new }
{
    if state.take_unit() {
        Course::Asks(purpose, request)
    } else {
        Course::Silent(spent(state))
    }
}

/// A name of the code.
pub fn name_of(code: &Code, index: u16) -> Name
    requires { index < length code.now.names }
    ensures { slice_get code.now.names index ≡ Some result }
{
    code.names.items()[index as usize]
}

/// A function of the code.
pub fn function_of(code: &Code, index: usize) -> CodeFunction
    requires { index < length code.now.functions }
    ensures { slice_get code.now.functions index ≡ Some result }
{
    code.functions.items()[index]
}

/// A line of the code.
pub fn line_of(code: &Code, place: u32) -> CodeLine
    requires { place < length code.now.lines }
    ensures { slice_get code.now.lines place ≡ Some result }
{
    code.lines.items()[place as usize]
}

/// One of the lines as it lies there.
pub fn line_at(lines: &[CodeLine], place: u32) -> &CodeLine
    requires { place < length lines.now }
    ensures { slice_get lines.now place ≡ Some result.now }
{
    &lines[place as usize]
}
