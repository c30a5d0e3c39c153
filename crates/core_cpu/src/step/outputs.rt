// Outputs.

ghost use Rattle.std.specs.Prelude.{◌≡◌, ◌+◌, ◌<◌, ◌≤◌, ◌^◌, is_some, IfOk, IsTrue, OnErr};
ghost use Rattle.core_isa.specs.Runs.{counted};
ghost use Rattle.core_isa.specs.Steps.{act, output};
ghost use Rattle.core_isa.specs.declared.code.Code.{Code};
ghost use Rattle.core_isa.specs.declared.instr.Instr.TheVariants as I;
ghost use Rattle.core_cpu.specs.Courses.{Fits, TurnsTo};

use super::{asks, onward, spent};
use crate::course::Course;
use crate::phase::Purpose;
use crate::state::State;
use rtio_types::{Event, Request};
use std::alloc::AllocError;
use word_arithmetic::{low_byte, low_word};

// Counts the instruction, and puts out a word on a channel and address, or collects it in the open recording. Without
// memory for it nothing happens.
fn put_out(state: &mut State, channel: u8, address: u8, word: i64) -> Result<Course, AllocError>
    requires { state.old.machine.top.place + 1 < 2 ^ 32 }
    ensures goes { IfOk result (λ course. TurnsTo (λ m. output channel address word (counted m)) state.old course state.new) }
    ensures same { OnErr result (state.new ≡ state.old) }
    ensures memory { OnErr result (IsTrue (is_some state.old.machine.recording)) }
    ensures unit { OnErr result (1 ≤ state.old.machine.units) }
{
    let event = Event {
        channel,
        address,
        value: low_word(word),
        stamp: state.cursor(),
    };
    if !state.is_recording() {
        state.count();
        return Ok(asks(state, Purpose::Nothing, Request::Out(event)));
    }
    if state.units() == 0 {
        state.count();
        return Ok(Course::Silent(spent(state)));
    }
    state.collect(event)?;
    state.count();
    state.use_unit();
    Ok(Course::Silent(onward(state)))
}

/// Counts the instruction, and puts out the topmost operand on a channel and address.
pub fn out(state: &mut State, channel: u8, address: u8) -> Result<Course, AllocError>
    requires { Fits 1 0 state.old }
    ensures goes { IfOk result (λ course. (code : Code) → TurnsTo (λ m. act code (I.Out channel address) (counted m)) state.old course state.new) }
    ensures same { OnErr result (state.new ≡ state.old) }
    ensures memory { OnErr result (IsTrue (is_some state.old.machine.recording)) }
    ensures unit { OnErr result (1 ≤ state.old.machine.units) }
{
    let word = state.pop();
    let course = put_out(state, channel, address, word);
    if course.is_err() {
        state.push(word);
    }
    course
}

/// The same, at the address that is the second operand modulo 256.
pub fn out_to(state: &mut State, channel: u8) -> Result<Course, AllocError>
    requires { Fits 2 0 state.old }
    ensures goes { IfOk result (λ course. (code : Code) → TurnsTo (λ m. act code (I.OutTo channel) (counted m)) state.old course state.new) }
    ensures same { OnErr result (state.new ≡ state.old) }
    ensures memory { OnErr result (IsTrue (is_some state.old.machine.recording)) }
    ensures unit { OnErr result (1 ≤ state.old.machine.units) }
{
    let word = state.pop();
    let address = state.pop();
    let course = put_out(state, channel, low_byte(address), word);
    if course.is_err() {
        state.push(address);
        state.push(word);
    }
    course
}
