// Requests.

ghost use Rattle.std.specs.Prelude.{◌≡◌, ◌+◌, ◌<◌, ◌≤◌, length, None, IfOk, OnErr};
ghost use Rattle.core_isa.specs.Runs.{counted};
ghost use Rattle.core_isa.specs.Steps.{act};
ghost use Rattle.core_isa.specs.declared.code.Code.{Code};
ghost use Rattle.core_isa.specs.declared.instr.Instr.TheVariants as I;
ghost use Rattle.core_cpu.specs.Courses.{Fits, TurnsTo};

use super::{asks, name_of, spent};
use crate::course::Course;
use crate::phase::Purpose;
use crate::state::State;
use core_isa::Code;
use rtio_types::{IntList, Request, Value};
use std::alloc::{AllocError, Global};

/// Reads the counter.
pub fn counter(state: &mut State) -> Course
    requires { state.old.machine.recording ≡ None }
    ensures { (code : Code) → TurnsTo (act code I.Counter) state.old result state.new }
{
    asks(state, Purpose::Number, Request::Counter)
}

/// Resets the core.
pub fn reset(state: &mut State) -> Course
    requires { state.old.machine.recording ≡ None }
    ensures { (code : Code) → TurnsTo (act code I.Reset) state.old result state.new }
{
    asks(state, Purpose::Number, Request::Reset)
}

/// Waits.
pub fn wait(state: &mut State) -> Course
    requires closed { state.old.machine.recording ≡ None }
    requires fits { Fits 1 0 state.old }
    ensures { (code : Code) → TurnsTo (act code I.Wait) state.old result state.new }
{
    let until = state.pop();
    asks(state, Purpose::Nothing, Request::Wait { until })
}

/// Takes an edge of an input.
pub fn edge(state: &mut State, channel: u8) -> Course
    requires closed { state.old.machine.recording ≡ None }
    requires fits { Fits 1 1 state.old }
    ensures { (code : Code) → TurnsTo (act code (I.Edge channel)) state.old result state.new }
{
    let up_to = state.pop();
    asks(state, Purpose::Number, Request::Edge { channel, up_to })
}

/// Plays the recording of a name.
pub fn play(code: &Code, state: &mut State, name: u16) -> Course
    requires closed { state.old.machine.recording ≡ None }
    requires name { name < length code.now.names }
    ensures { TurnsTo (act code.now (I.Play name)) state.old result state.new }
{
    let name = name_of(code, name);
    asks(state, Purpose::Fetched, Request::Fetch { name })
}

/// Plays the recording of a handle.
pub fn play_handle(state: &mut State) -> Course
    requires closed { state.old.machine.recording ≡ None }
    requires fits { Fits 1 0 state.old }
    ensures { (code : Code) → TurnsTo (act code I.PlayHandle) state.old result state.new }
{
    let handle = state.pop();
    asks(state, Purpose::Fetched, Request::FetchHandle { handle })
}

/// Asks for a handle of the recording of a name.
pub fn handle(code: &Code, state: &mut State, name: u16) -> Course
    requires closed { state.old.machine.recording ≡ None }
    requires name { name < length code.now.names }
    ensures { TurnsTo (act code.now (I.Handle name)) state.old result state.new }
{
    let name = name_of(code, name);
    asks(state, Purpose::Number, Request::Handle { name })
}

/// Has the recording of a name forgotten.
pub fn erase(code: &Code, state: &mut State, name: u16) -> Course
    requires closed { state.old.machine.recording ≡ None }
    requires name { name < length code.now.names }
    ensures { TurnsTo (act code.now (I.Erase name)) state.old result state.new }
{
    let name = name_of(code, name);
    asks(state, Purpose::Nothing, Request::Erase { name })
}

/// Sets the dataset of a name to a number.
pub fn data_int(code: &Code, state: &mut State, name: u16) -> Course
    requires closed { state.old.machine.recording ≡ None }
    requires name { name < length code.now.names }
    requires fits { Fits 1 0 state.old }
    ensures { TurnsTo (act code.now (I.DataInt name)) state.old result state.new }
{
    let name = name_of(code, name);
    let value = Value::Int(state.pop());
    asks(state, Purpose::Nothing, Request::Data { name, value })
}

/// Counts the instruction, and sets the dataset of a name to the numbers of an array. Without memory for them nothing
/// happens.
pub fn data_list(
    alloc: Global,
    code: &Code,
    state: &mut State,
    name: u16,
    first: u16,
    count: u16,
) -> Result<Course, AllocError>
    requires closed { state.old.machine.recording ≡ None }
    requires name { name < length code.now.names }
    requires array { first + count ≤ length state.old.machine.top.slots }
    ensures goes { IfOk result (λ course. TurnsTo (λ m. act code.now (I.DataList name first count) (counted m)) state.old course state.new) }
    ensures same { OnErr result (state.new ≡ state.old) }
    ensures unit { OnErr result (1 ≤ state.old.machine.units) }
{
    let name = name_of(code, name);
    if state.units() == 0 {
        state.count();
        return Ok(Course::Silent(spent(state)));
    }
    let items = state.array(alloc, first as usize, count as usize)?;
    let value = Value::List(IntList::of(items));
    state.count();
    Ok(asks(state, Purpose::Nothing, Request::Data { name, value }))
}
