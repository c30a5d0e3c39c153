// The tests of conditions, where a condition's opposite may be asked in its place.

ghost use Rattle.std.specs.Prelude.{◌≡◌, ◌+◌, ◌<◌, ◌^◌, ◌++◌, OnOk, length};
ghost use Rattle.code_forms.specs.Conditions.{asked_comparison, is_opposed, loop_instrs, loop_size, meant, test_instrs, test_size};
ghost use Rattle.code_forms.specs.Lines.{straight};
ghost use Rattle.core_code_lines.specs.Room.{HasRoom};

use code_forms::TestKind;
use core_code_lines::put_all;
use core_isa::{CodeLine, Instr, Mark};
use kern_syntax::Comparison;
use std::alloc::AllocError;

/// Whether the opposite of a comparison is asked: that of one that has no instruction of its own, though its opposite has one,
/// and at the end of a loop, whose test is shorter then, that of `==` and `!=`.
pub fn is_opposed(comparison: Comparison, test: TestKind) -> bool
    ensures { result ≡ is_opposed comparison test }
{
    match (comparison, test) {
        (Comparison::Greater | Comparison::GreaterEqual, _) => true,
        (Comparison::Equal | Comparison::NotEqual, TestKind::LoopEnd) => true,
        _ => false,
    }
}

/// What is asked for a comparison: its opposite, where that is asked, and else the comparison itself.
pub fn asked_comparison(comparison: Comparison, test: TestKind) -> Comparison
    ensures { result ≡ asked_comparison comparison test }
{
    match (comparison, test) {
        (Comparison::Greater, _) => Comparison::LessEqual,
        (Comparison::GreaterEqual, _) => Comparison::Less,
        (Comparison::Equal, TestKind::LoopEnd) => Comparison::NotEqual,
        (Comparison::NotEqual, TestKind::LoopEnd) => Comparison::Equal,
        _ => comparison,
    }
}

/// The comparison that is meant: this one, or where the contrary is meant its opposite.
pub fn meant(contrary: bool, comparison: Comparison) -> Comparison
    ensures { result ≡ meant contrary comparison }
{
    if !contrary {
        return comparison;
    }
    match comparison {
        Comparison::Equal => Comparison::NotEqual,
        Comparison::NotEqual => Comparison::Equal,
        Comparison::Less => Comparison::GreaterEqual,
        Comparison::LessEqual => Comparison::Greater,
        Comparison::Greater => Comparison::LessEqual,
        Comparison::GreaterEqual => Comparison::Less,
    }
}

/// How many instructions the test of a branch has, where the opposite of its condition is asked or not.
pub fn test_size(turned: bool) -> u32
    ensures { result ≡ test_size turned }
{
    if turned { 2 } else { 1 }
}

/// The same of the test at the end of a loop.
pub fn loop_size(turned: bool) -> u32
    ensures { result ≡ loop_size turned }
{
    if turned { 1 } else { 2 }
}

/// Puts the test of a branch, under the mark that counts the answer: what stands behind it runs where the condition holds, and
/// what stands elsewhere where it doesn't.
pub fn put_test(
    lines: &mut Vec<CodeLine>,
    mark: Mark,
    turned: bool,
    elsewhere: u32,
) -> Result<(), AllocError>
    requires room { HasRoom mark 2 }
    requires places { length lines.old.items + 2 < 2 ^ 32 }
    ensures code { OnOk result (lines.new.items ≡ lines.old.items ++ straight mark (test_instrs turned (length lines.old.items) elsewhere)) }
    ensures longer { OnOk result (length lines.new.items ≡ length lines.old.items + test_size turned) }
{
    if turned {
        let place = lines.len() as u32;
        let instrs = [Instr::JumpZero(place + 2), Instr::Jump(elsewhere)];
        return put_all(lines, mark, &instrs);
    }
    put_all(lines, mark, &[Instr::JumpZero(elsewhere)])
}

/// Puts the test at the end of a loop, under the mark that counts the answer: it goes back to a turn where the condition holds,
/// and past the loop where it doesn't. The loop ends behind it.
pub fn put_loop_test(
    lines: &mut Vec<CodeLine>,
    mark: Mark,
    turned: bool,
    turn: u32,
    past: u32,
) -> Result<(), AllocError>
    requires { HasRoom mark 2 }
    ensures code { OnOk result (lines.new.items ≡ lines.old.items ++ straight mark (loop_instrs turned turn past)) }
    ensures longer { OnOk result (length lines.new.items ≡ length lines.old.items + loop_size turned) }
{
    if turned {
        return put_all(lines, mark, &[Instr::JumpZero(turn)]);
    }
    put_all(lines, mark, &[Instr::JumpZero(past), Instr::Jump(turn)])
}
