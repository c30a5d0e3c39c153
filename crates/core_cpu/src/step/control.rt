// Operands, jumps, handlers.

ghost use Rattle.std.specs.Prelude.{◌≡◌, ◌+◌, ◌<◌, ◌≤◌, ◌^◌, length};
ghost use Rattle.core_isa.specs.Steps.{act};
ghost use Rattle.core_isa.specs.Machine.{exception_of};
ghost use Rattle.core_isa.specs.declared.code.Code.{Code};
ghost use Rattle.core_isa.specs.declared.instr.Instr.TheVariants as I;
ghost use Rattle.core_cpu.specs.Courses.{Fits, TurnsTo};
ghost use Rattle.core_cpu.specs.declared.course.Course.TheVariants.{Silent};

use super::{gives, onward, raises, spent};
use crate::course::Way;
use crate::state::State;
use rtio_types::Exc;

/// Drops the topmost operand.
pub fn pop(state: &mut State) -> Way
    requires { Fits 1 0 state.old }
    ensures { (code : Code) → TurnsTo (act code I.Pop) state.old (Silent result) state.new }
{
    let _ = state.pop();
    onward(state)
}

/// Doubles the topmost operand.
pub fn dup(state: &mut State) -> Way
    requires { Fits 1 2 state.old }
    ensures { (code : Code) → TurnsTo (act code I.Dup) state.old (Silent result) state.new }
{
    let value = state.pop();
    state.push(value);
    gives(state, value)
}

/// Goes on at a place.
pub fn jump(state: &mut State, place: u32) -> Way
    ensures { (code : Code) → TurnsTo (act code (I.Jump place)) state.old (Silent result) state.new }
{
    state.go_to(place);
    Way::Goes
}

/// Goes on at a place where the topmost operand is 0.
pub fn jump_zero(state: &mut State, place: u32) -> Way
    requires { Fits 1 0 state.old }
    ensures { (code : Code) → TurnsTo (act code (I.JumpZero place)) state.old (Silent result) state.new }
{
    if state.pop() == 0 {
        jump(state, place)
    } else {
        onward(state)
    }
}

/// Takes a unit.
pub fn turn(state: &mut State) -> Way
    requires { Fits 0 0 state.old }
    ensures { (code : Code) → TurnsTo (act code I.Turn) state.old (Silent result) state.new }
{
    if state.take_unit() {
        onward(state)
    } else {
        spent(state)
    }
}

/// Adds a handler.
pub fn begin_try(state: &mut State, place: u32) -> Way
    requires bare { length state.old.machine.top.operands ≡ 0 }
    requires room { length state.old.machine.top.handlers < 255 }
    requires place { state.old.machine.top.place + 1 < 2 ^ 32 }
    ensures { (code : Code) → TurnsTo (act code (I.Try place)) state.old (Silent result) state.new }
{
    state.add_handler(place);
    onward(state)
}

/// Removes the last handler.
pub fn end_try(state: &mut State) -> Way
    requires some { 1 ≤ length state.old.machine.top.handlers }
    requires place { state.old.machine.top.place + 1 < 2 ^ 32 }
    ensures { (code : Code) → TurnsTo (act code I.EndTry) state.old (Silent result) state.new }
{
    state.remove_handler();
    onward(state)
}

// The exception of a number; StackOverflow where it is none.
fn exception(number: i64) -> Exc
    ensures { result ≡ exception_of number }
{
    match number {
        1 => Exc::RTIOUnderflow,
        2 => Exc::RTIOOverflow,
        3 => Exc::DMAError,
        4 => Exc::ZeroDivisionError,
        5 => Exc::IndexError,
        _ => Exc::StackOverflow,
    }
}

/// Raises the exception of the topmost operand.
pub fn raise(state: &mut State) -> Way
    requires { 1 ≤ length state.old.machine.top.operands }
    ensures { (code : Code) → TurnsTo (act code I.Raise) state.old (Silent result) state.new }
{
    let number = state.pop();
    raises(state, exception(number))
}
