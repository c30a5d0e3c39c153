// Slots and arrays.

ghost use Rattle.std.specs.Prelude.{◌≡◌, ◌+◌, ◌<◌, ◌≤◌, length, Option, Some, None};
ghost use Rattle.core_isa.specs.Steps.{act, index_in, load_at, on_one, on_two, store_at};
ghost use Rattle.core_isa.specs.declared.code.Code.{Code};
ghost use Rattle.core_isa.specs.declared.instr.Instr.TheVariants.{Fill, Load, LoadAt, Store, StoreAt};
ghost use Rattle.core_cpu.specs.Courses.{Fits, TurnsTo};
ghost use Rattle.core_cpu.specs.declared.course.Course.TheVariants.{Silent};

use super::{gives, onward, raises};
use crate::course::Way;
use crate::state::State;
use rtio_types::Exc;

/// Puts the value of a slot upon the operands.
pub fn load(state: &mut State, slot: u16) -> Way
    requires slot { slot < length state.old.machine.top.slots }
    requires fits { Fits 0 1 state.old }
    ensures { (code : Code) → TurnsTo (act code (Load slot)) state.old (Silent result) state.new }
{
    let value = state.slot(slot as usize);
    gives(state, value)
}

/// Writes the topmost operand into a slot.
pub fn store(state: &mut State, slot: u16) -> Way
    requires slot { slot < length state.old.machine.top.slots }
    requires fits { Fits 1 0 state.old }
    ensures { (code : Code) → TurnsTo (act code (Store slot)) state.old (Silent result) state.new }
{
    let value = state.pop();
    state.set_slot(slot as usize, value);
    onward(state)
}

// An index within an array of a length.
fn index_within(count: u16, index: i64) -> Option<usize>
    ensures { result ≡ index_in count index }
{
    if 0 <= index && index < count as i64 {
        Some(index as usize)
    } else {
        None
    }
}

/// Puts an element of an array upon the operands.
pub fn load_element(state: &mut State, first: u16, count: u16) -> Way
    requires array { first + count ≤ length state.old.machine.top.slots }
    requires fits { Fits 1 1 state.old }
    ensures { (code : Code) → TurnsTo (act code (LoadAt first count)) state.old (Silent result) state.new }
{
    let index = state.pop();
    match index_within(count, index) {
        Some(index) => {
            let value = state.slot(first as usize + index);
            gives(state, value)
        }
        None => raises(state, Exc::IndexError),
    }
}

/// Writes an element of an array.
pub fn store_element(state: &mut State, first: u16, count: u16) -> Way
    requires array { first + count ≤ length state.old.machine.top.slots }
    requires fits { Fits 2 0 state.old }
    ensures { (code : Code) → TurnsTo (act code (StoreAt first count)) state.old (Silent result) state.new }
{
    let index = state.pop();
    let value = state.pop();
    match index_within(count, index) {
        Some(index) => {
            state.set_slot(first as usize + index, value);
            onward(state)
        }
        None => raises(state, Exc::IndexError),
    }
}

/// Writes the topmost operand into each element of an array.
pub fn fill(state: &mut State, first: u16, count: u16) -> Way
    requires array { first + count ≤ length state.old.machine.top.slots }
    requires fits { Fits 1 0 state.old }
    ensures { (code : Code) → TurnsTo (act code (Fill first count)) state.old (Silent result) state.new }
{
    let value = state.pop();
    state.fill(first as usize, count as usize, value);
    onward(state)
}
