// Instructions that neither ask nor raise nor call.

ghost use Rattle.std.specs.Prelude.{◌≡◌, ◌≤◌, IfNone, IfSome};
ghost use Rattle.core_isa.specs.Runs.{counted};
ghost use Rattle.core_isa.specs.Steps.{act};
ghost use Rattle.core_isa.specs.declared.code.Code.{Code};
ghost use Rattle.core_isa.specs.declared.instr.Instr.TheVariants as I;
ghost use Rattle.core_cpu.specs.Courses.{CanRun, Fits, TurnsTo};
ghost use Rattle.core_cpu.specs.declared.course.Course.TheVariants.{Silent};

use crate::course::Way;
use crate::state::State;
use crate::step::control::{dup, jump, jump_zero, pop};
use crate::step::frequent::{add, change_one, compare, modulo, multiply, subtract, wrap};
use crate::step::operators::combine_plain;
use crate::step::slots::{load, store};
use crate::step::timeline::{at, delay, now};
use crate::step::{gives, onward};
use core_isa::{Code, Instr};

// Counts the instruction and runs it.
macro_rules! counted {
    ($state:expr, $way:expr) => {{
        $state.count();
        Some($way)
    }};
}

// Takes one of the units that are left.
fn turn_on(state: &mut State) -> Way
    requires units { 1 ≤ state.old.machine.units }
    requires fits { Fits 0 0 state.old }
    ensures { (code : Code) → TurnsTo (act code I.Turn) state.old (Silent result) state.new }
{
    state.use_unit();
    onward(state)
}

/// Counts and runs an instruction that neither asks nor raises nor calls, and has its unit. Nothing is done with another
/// one. No call that needs the state in memory is made, and one test tells all but the rarer ones.
pub fn quick(code: &Code, state: &mut State, instr: &Instr) -> Option<Way>
    requires { CanRun code.now state.old instr.now }
    ensures quick { IfSome result (λ way. TurnsTo (λ m. act code.now instr.now (counted m)) state.old (Silent way) state.new) }
    ensures other { IfNone result (state.new ≡ state.old) }
{
    match instr {
        Instr::Const(value) => counted!(state, gives(state, *value)),
        Instr::Load(slot) => counted!(state, load(state, *slot)),
        Instr::Store(slot) => counted!(state, store(state, *slot)),
        Instr::Add => counted!(state, add(state)),
        Instr::Sub => counted!(state, subtract(state)),
        Instr::Mul => counted!(state, multiply(state)),
        Instr::Lt => counted!(state, compare(state)),
        Instr::Wrap32 => counted!(state, wrap(state)),
        Instr::Jump(place) => counted!(state, jump(state, *place)),
        Instr::JumpZero(place) => counted!(state, jump_zero(state, *place)),
        Instr::Turn => {
            if state.units() == 0 {
                return None;
            }
            counted!(state, turn_on(state))
        }
        _ => quick_rare(code, state, instr),
    }
}

// The same of the rarer ones. (The compiler gives each arm above its own jump to the next one only where they are few.)
fn quick_rare(code: &Code, state: &mut State, instr: &Instr) -> Option<Way>
    requires { CanRun code.now state.old instr.now }
    ensures quick { IfSome result (λ way. TurnsTo (λ m. act code.now instr.now (counted m)) state.old (Silent way) state.new) }
    ensures other { IfNone result (state.new ≡ state.old) }
{
    match instr {
        Instr::And
        | Instr::Or
        | Instr::Xor
        | Instr::Shl(_)
        | Instr::Shr(_)
        | Instr::Eq
        | Instr::Ne
        | Instr::Le
        | Instr::Max => counted!(state, combine_plain(state, instr)),
        Instr::Neg | Instr::Inv => counted!(state, change_one(state, instr)),
        _ => quick_other(code, state, instr),
    }
}

// The same of what is left.
fn quick_other(code: &Code, state: &mut State, instr: &Instr) -> Option<Way>
    requires { CanRun code.now state.old instr.now }
    ensures quick { IfSome result (λ way. TurnsTo (λ m. act code.now instr.now (counted m)) state.old (Silent way) state.new) }
    ensures other { IfNone result (state.new ≡ state.old) }
{
    match instr {
        Instr::Pop => counted!(state, pop(state)),
        Instr::Dup => counted!(state, dup(state)),
        Instr::Now => counted!(state, now(state)),
        Instr::At => counted!(state, at(state)),
        Instr::Delay => counted!(state, delay(state)),
        Instr::Mod => {
            // A division by 0 raises.
            if state.operand() == 0 {
                return None;
            }
            counted!(state, modulo(state))
        }
        _ => None,
    }
}
