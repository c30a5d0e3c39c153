// Operators: values from values.

ghost use Rattle.std.specs.Prelude.{◌≡◌, ◌∷◌, List, ℤ, IsTrue};
ghost use Rattle.rtio_types.specs.declared.outcome.Exc.TheVariants.{ZeroDivisionError};
ghost use Rattle.core_isa.specs.Machine.{Machine, push, with_operands};
ghost use Rattle.core_isa.specs.Steps.{act, push_or_raise};
ghost use Rattle.core_isa.specs.declared.code.Code.{Code};
ghost use Rattle.core_cpu.specs.Courses.{Fits, TurnsTo};
ghost use Rattle.core_cpu.specs.Families.{changes_one, is_operator, is_plain, HasShiftWidth};
ghost use Rattle.core_cpu.specs.declared.course.Course.TheVariants.{Silent};

use super::{gives, raises};
use crate::course::Way;
use crate::state::State;
use core_isa::Instr;
use rtio_types::Exc;
use word_arithmetic::{low_signed, quotient, remainder, shifted_left, shifted_right};

// The result of an operator on two values. A division by 0 has none.
fn combined(instr: Instr, a: i64, b: i64) -> Option<i64>
    requires operator { IsTrue (is_operator instr) }
    requires width { HasShiftWidth instr }
    ensures { (code : Code) (m : Machine) (rest : List ℤ) →
        act code instr (with_operands m (b ∷ a ∷ rest)) ≡ push_or_raise ZeroDivisionError result (with_operands m rest) }
{
    match instr {
        Instr::Add => Some(a.wrapping_add(b)),
        Instr::Sub => Some(a.wrapping_sub(b)),
        Instr::Mul => Some(a.wrapping_mul(b)),
        Instr::Div => quotient(a, b),
        Instr::Mod => remainder(a, b),
        Instr::And => Some(a & b),
        Instr::Or => Some(a | b),
        Instr::Xor => Some(a ^ b),
        Instr::Shl(width) => Some(shifted_left(a, b, width)),
        Instr::Shr(width) => Some(shifted_right(a, b, width)),
        Instr::Eq => Some(i64::from(a == b)),
        Instr::Ne => Some(i64::from(a != b)),
        Instr::Lt => Some(i64::from(a < b)),
        Instr::Le => Some(i64::from(a <= b)),
        Instr::Max => Some(a.max(b)),
        _ => unreachable!(),
    }
}

/// An operator on the two topmost operands.
pub fn combine(state: &mut State, instr: Instr) -> Way
    requires operator { IsTrue (is_operator instr) }
    requires width { HasShiftWidth instr }
    requires fits { Fits 2 1 state.old }
    ensures { (code : Code) → TurnsTo (act code instr) state.old (Silent result) state.new }
{
    let b = state.pop();
    let a = state.pop();
    match combined(instr, a, b) {
        Some(value) => gives(state, value),
        None => raises(state, Exc::ZeroDivisionError),
    }
}

// The result of an operator on two values that has one for all of them.
fn plain(instr: &Instr, a: i64, b: i64) -> i64
    requires operator { IsTrue (is_plain instr.now) }
    requires width { HasShiftWidth instr.now }
    ensures { (code : Code) (m : Machine) (rest : List ℤ) →
        act code instr.now (with_operands m (b ∷ a ∷ rest)) ≡ push result (with_operands m rest) }
{
    match instr {
        Instr::Add => a.wrapping_add(b),
        Instr::Sub => a.wrapping_sub(b),
        Instr::Mul => a.wrapping_mul(b),
        Instr::And => a & b,
        Instr::Or => a | b,
        Instr::Xor => a ^ b,
        Instr::Shl(width) => shifted_left(a, b, *width),
        Instr::Shr(width) => shifted_right(a, b, *width),
        Instr::Eq => i64::from(a == b),
        Instr::Ne => i64::from(a != b),
        Instr::Lt => i64::from(a < b),
        Instr::Le => i64::from(a <= b),
        Instr::Max => a.max(b),
        _ => unreachable!(),
    }
}

/// Such an operator on the two topmost operands.
pub fn combine_plain(state: &mut State, instr: &Instr) -> Way
    requires operator { IsTrue (is_plain instr.now) }
    requires width { HasShiftWidth instr.now }
    requires fits { Fits 2 1 state.old }
    ensures { (code : Code) → TurnsTo (act code instr.now) state.old (Silent result) state.new }
{
    let b = state.pop();
    let a = state.pop();
    gives(state, plain(instr, a, b))
}

/// What becomes of one value.
pub fn changed(instr: Instr, a: i64) -> i64
    requires { IsTrue (changes_one instr) }
    ensures { (code : Code) (m : Machine) (rest : List ℤ) →
        act code instr (with_operands m (a ∷ rest)) ≡ push result (with_operands m rest) }
{
    match instr {
        Instr::Neg => a.wrapping_neg(),
        Instr::Inv => (-1i64).wrapping_sub(a),
        Instr::Wrap32 => low_signed(a),
        _ => unreachable!(),
    }
}

/// Changes the topmost operand.
pub fn change(state: &mut State, instr: Instr) -> Way
    requires changes { IsTrue (changes_one instr) }
    requires fits { Fits 1 1 state.old }
    ensures { (code : Code) → TurnsTo (act code instr) state.old (Silent result) state.new }
{
    let a = state.pop();
    gives(state, changed(instr, a))
}
