// The instruction at hand.

ghost use Rattle.std.specs.Prelude.{◌≡◌, ◌≤◌, false, true, is_some, IfOk, IsTrue, OnErr};
ghost use Rattle.core_isa.specs.Runs.{counted};
ghost use Rattle.core_isa.specs.Steps.{act};
ghost use Rattle.core_cpu.specs.Courses.{CanRun, TurnsTo};
ghost use Rattle.core_cpu.specs.Families.{asks, asks_more};
ghost use Rattle.core_cpu.specs.Standing.{takes_memory};
ghost use Rattle.core_cpu.specs.declared.course.Course.TheVariants.{Silent};

use crate::course::{Course, Way};
use crate::state::State;
use crate::step::calls::{enter, leave};
use crate::step::control::{begin_try, dup, end_try, jump, jump_zero, pop, raise, turn};
use crate::step::operators::{change, combine};
use crate::step::outputs::{out, out_to};
use crate::step::recordings::{record, save};
use crate::step::requests::{
    counter, data_int, data_list, edge, erase, handle, play, play_handle, reset, wait,
};
use crate::step::slots::{fill, load, load_element, store, store_element};
use crate::step::timeline::{at, delay, now};
use crate::step::{function_of, gives};
use core_isa::{Code, Instr};
use std::alloc::{AllocError, Global};

/// Whether an instruction may ask something.
pub fn may_ask(instr: Instr) -> bool
    ensures { result ≡ asks instr }
{
    matches!(
        instr,
        Instr::Out(_, _)
            | Instr::OutTo(_)
            | Instr::Counter
            | Instr::Reset
            | Instr::Wait
            | Instr::Edge(_)
            | Instr::Save
            | Instr::Play(_)
            | Instr::PlayHandle
            | Instr::Handle(_)
            | Instr::Erase(_)
            | Instr::DataInt(_)
            | Instr::DataList(_, _, _)
    )
}

/// Counts and runs an instruction that may ask something. Where there is no memory for it nothing has happened.
pub fn run_asking(
    alloc: Global,
    code: &Code,
    state: &mut State,
    instr: Instr,
) -> Result<Course, AllocError>
    requires can { CanRun code.now state.old instr }
    requires asks { asks instr ≡ true }
    ensures goes { IfOk result (λ course. TurnsTo (λ m. act code.now instr (counted m)) state.old course state.new) }
    ensures same { OnErr result (state.new ≡ state.old) }
    ensures memory { OnErr result (IsTrue (takes_memory (is_some state.old.machine.recording) instr)) }
    ensures unit { OnErr result (1 ≤ state.old.machine.units) }
{
    match instr {
        Instr::Out(channel, address) => out(state, channel, address),
        Instr::OutTo(channel) => out_to(state, channel),
        Instr::DataList(name, first, count) => data_list(alloc, code, state, name, first, count),
        _ => {
            state.count();
            Ok(ask(code, state, instr))
        }
    }
}

// Runs an instruction that asks for more than an output and takes no memory.
fn ask(code: &Code, state: &mut State, instr: Instr) -> Course
    requires can { CanRun code.now state.old instr }
    requires asks { asks_more instr ≡ true }
    ensures { TurnsTo (act code.now instr) state.old result state.new }
{
    match instr {
        Instr::Counter => counter(state),
        Instr::Reset => reset(state),
        Instr::Wait => wait(state),
        Instr::Edge(channel) => edge(state, channel),
        Instr::Save => save(state),
        Instr::Play(name) => play(code, state, name),
        Instr::PlayHandle => play_handle(state),
        Instr::Handle(name) => handle(code, state, name),
        Instr::Erase(name) => erase(code, state, name),
        Instr::DataInt(name) => data_int(code, state, name),
        _ => unreachable!(),
    }
}

/// Runs an instruction that asks nothing.
pub fn run_silent(alloc: Global, code: &Code, state: &mut State, instr: Instr) -> Way
    requires can { CanRun code.now state.old instr }
    requires silent { asks instr ≡ false }
    ensures { TurnsTo (act code.now instr) state.old (Silent result) state.new }
{
    match instr {
        Instr::Const(value) => gives(state, value),
        Instr::Load(slot) => load(state, slot),
        Instr::Store(slot) => store(state, slot),
        Instr::LoadAt(first, count) => load_element(state, first, count),
        Instr::StoreAt(first, count) => store_element(state, first, count),
        Instr::Fill(first, count) => fill(state, first, count),
        Instr::Neg | Instr::Inv | Instr::Wrap32 => change(state, instr),
        Instr::Pop => pop(state),
        Instr::Dup => dup(state),
        Instr::Jump(place) => jump(state, place),
        Instr::JumpZero(place) => jump_zero(state, place),
        Instr::Turn => turn(state),
        Instr::Call(function) => enter(state, function_of(code, function as usize)),
        Instr::Return => leave(state),
        Instr::Try(place) => begin_try(state, place),
        Instr::EndTry => end_try(state),
        Instr::Raise => raise(state),
        Instr::Now => now(state),
        Instr::At => at(state),
        Instr::Delay => delay(state),
        Instr::Record(name) => record(alloc, code, state, name),
        Instr::Out(_, _) | Instr::OutTo(_) | Instr::DataList(_, _, _) => unreachable!(),
        Instr::Counter | Instr::Reset | Instr::Wait | Instr::Edge(_) => unreachable!(),
        Instr::Save | Instr::Play(_) | Instr::PlayHandle | Instr::Handle(_) => unreachable!(),
        Instr::Erase(_) | Instr::DataInt(_) => unreachable!(),
        _ => combine(state, instr),
    }
}
