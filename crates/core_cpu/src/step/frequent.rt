// Frequent operators, each by itself: so the compiler puts each into the loop where it is called.

ghost use Rattle.std.specs.Prelude.{◌≡◌, ◌≢◌, ◌∷◌, List, ℤ, pos, Some, slice_get, IsTrue};
ghost use Rattle.core_isa.specs.Machine.{Machine, push, with_operands};
ghost use Rattle.core_isa.specs.Steps.{act};
ghost use Rattle.core_isa.specs.declared.code.Code.{Code};
ghost use Rattle.core_isa.specs.declared.instr.Instr.TheVariants as I;
ghost use Rattle.core_cpu.specs.Courses.{Fits, TurnsTo};
ghost use Rattle.core_cpu.specs.Families.{changes_one};
ghost use Rattle.core_cpu.specs.declared.course.Course.TheVariants.{Silent};

use super::gives;
use super::operators::changed;
use crate::course::Way;
use crate::state::State;
use core_isa::Instr;
use word_arithmetic::{low_signed, remainder};

fn sum(a: i64, b: i64) -> i64
    ensures { (code : Code) (m : Machine) (rest : List ℤ) →
        act code I.Add (with_operands m (b ∷ a ∷ rest)) ≡ push result (with_operands m rest) }
{
    a.wrapping_add(b)
}

fn difference(a: i64, b: i64) -> i64
    ensures { (code : Code) (m : Machine) (rest : List ℤ) →
        act code I.Sub (with_operands m (b ∷ a ∷ rest)) ≡ push result (with_operands m rest) }
{
    a.wrapping_sub(b)
}

fn product(a: i64, b: i64) -> i64
    ensures { (code : Code) (m : Machine) (rest : List ℤ) →
        act code I.Mul (with_operands m (b ∷ a ∷ rest)) ≡ push result (with_operands m rest) }
{
    a.wrapping_mul(b)
}

// What a division leaves.
fn left(a: i64, b: i64) -> i64
    requires { b ≢ pos 0 }
    ensures { (code : Code) (m : Machine) (rest : List ℤ) →
        act code I.Mod (with_operands m (b ∷ a ∷ rest)) ≡ push result (with_operands m rest) }
{
    match remainder(a, b) {
        Some(value) => value,
        None => unreachable!(),
    }
}

fn is_less(a: i64, b: i64) -> i64
    ensures { (code : Code) (m : Machine) (rest : List ℤ) →
        act code I.Lt (with_operands m (b ∷ a ∷ rest)) ≡ push result (with_operands m rest) }
{
    i64::from(a < b)
}

/// The sum of the two topmost operands.
pub fn add(state: &mut State) -> Way
    requires { Fits 2 1 state.old }
    ensures { (code : Code) → TurnsTo (act code I.Add) state.old (Silent result) state.new }
{
    let b = state.pop();
    let a = state.pop();
    gives(state, sum(a, b))
}

/// Their difference.
pub fn subtract(state: &mut State) -> Way
    requires { Fits 2 1 state.old }
    ensures { (code : Code) → TurnsTo (act code I.Sub) state.old (Silent result) state.new }
{
    let b = state.pop();
    let a = state.pop();
    gives(state, difference(a, b))
}

/// Their product.
pub fn multiply(state: &mut State) -> Way
    requires { Fits 2 1 state.old }
    ensures { (code : Code) → TurnsTo (act code I.Mul) state.old (Silent result) state.new }
{
    let b = state.pop();
    let a = state.pop();
    gives(state, product(a, b))
}

/// What the first one's division by the topmost one leaves, which isn't 0.
pub fn modulo(state: &mut State) -> Way
    requires fits { Fits 2 1 state.old }
    requires divisor { slice_get state.old.machine.top.operands 0 ≢ Some (pos 0) }
    ensures { (code : Code) → TurnsTo (act code I.Mod) state.old (Silent result) state.new }
{
    let b = state.pop();
    let a = state.pop();
    gives(state, left(a, b))
}

/// Whether the first one is less.
pub fn compare(state: &mut State) -> Way
    requires { Fits 2 1 state.old }
    ensures { (code : Code) → TurnsTo (act code I.Lt) state.old (Silent result) state.new }
{
    let b = state.pop();
    let a = state.pop();
    gives(state, is_less(a, b))
}

/// Changes the topmost operand.
pub fn change_one(state: &mut State, instr: &Instr) -> Way
    requires changes { IsTrue (changes_one instr.now) }
    requires fits { Fits 1 1 state.old }
    ensures { (code : Code) → TurnsTo (act code instr.now) state.old (Silent result) state.new }
{
    let a = state.pop();
    gives(state, changed(*instr, a))
}

fn wrapped(a: i64) -> i64
    ensures { (code : Code) (m : Machine) (rest : List ℤ) →
        act code I.Wrap32 (with_operands m (a ∷ rest)) ≡ push result (with_operands m rest) }
{
    low_signed(a)
}

/// The low 32 bits of the topmost operand, signed.
pub fn wrap(state: &mut State) -> Way
    requires { Fits 1 1 state.old }
    ensures { (code : Code) → TurnsTo (act code I.Wrap32) state.old (Silent result) state.new }
{
    let a = state.pop();
    gives(state, wrapped(a))
}
