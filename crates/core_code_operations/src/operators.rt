// The instructions of operators.

ghost use Rattle.std.specs.Prelude.{◌≡◌, ◌+◌, ◌++◌, [], ◌∷◌, OnOk, length};
ghost use Rattle.code_forms.specs.Lines.{straight};
ghost use Rattle.code_forms.specs.Operations.{operator_instr, operator_instrs, unary_instrs, comparison_instrs, not_instrs, wrapping};
ghost use Rattle.core_code_lines.specs.Room.{HasRoom};

use core_code_lines::put_all;
use core_isa::{CodeLine, Instr, Mark};
use kern_calls::{ValueType, bits_of};
use kern_syntax::{BinaryOperator, Comparison, UnaryOperator};
use std::alloc::AllocError;

// The instruction of an operator at a type.
fn operator_instr(operator: BinaryOperator, kind: ValueType) -> Instr
    ensures { result ≡ operator_instr operator kind }
{
    match operator {
        BinaryOperator::Add => Instr::Add,
        BinaryOperator::Subtract => Instr::Sub,
        BinaryOperator::Multiply => Instr::Mul,
        BinaryOperator::Divide => Instr::Div,
        BinaryOperator::Remainder => Instr::Mod,
        BinaryOperator::ShiftLeft => Instr::Shl(bits_of(kind)),
        BinaryOperator::ShiftRight => Instr::Shr(bits_of(kind)),
        BinaryOperator::BitAnd => Instr::And,
        BinaryOperator::BitXor => Instr::Xor,
        BinaryOperator::BitOr => Instr::Or,
    }
}

// An instruction whose result wraps at the width of its type: every instruction wraps at 64 bits.
fn put_wrapped(
    lines: &mut Vec<CodeLine>,
    mark: Mark,
    instr: Instr,
    kind: ValueType,
) -> Result<(), AllocError>
    requires { HasRoom mark 2 }
    ensures { OnOk result (lines.new.items ≡ lines.old.items ++ straight mark (instr ∷ wrapping kind)) }
{
    match kind {
        ValueType::Int32 => put_all(lines, mark, &[instr, Instr::Wrap32]),
        _ => put_all(lines, mark, &[instr]),
    }
}

/// How many instructions an operator has whose result is of this type: two where it wraps at 32 bits, else one.
pub fn wrapped_size(kind: ValueType) -> u32
    ensures { result ≡ 1 + length (wrapping kind) }
{
    match kind {
        ValueType::Int32 => 2,
        _ => 1,
    }
}

/// Puts an operator whose two operands are there, under the mark that counts them. The type is that of its result.
pub fn put_operator(
    lines: &mut Vec<CodeLine>,
    mark: Mark,
    operator: BinaryOperator,
    kind: ValueType,
) -> Result<(), AllocError>
    requires { HasRoom mark 2 }
    ensures { OnOk result (lines.new.items ≡ lines.old.items ++ straight mark (operator_instrs operator kind)) }
{
    put_wrapped(lines, mark, operator_instr(operator, kind), kind)
}

/// Puts `-` or `~` whose operand is there, under the mark that counts it. The type is that of its result.
pub fn put_unary(
    lines: &mut Vec<CodeLine>,
    mark: Mark,
    operator: UnaryOperator,
    kind: ValueType,
) -> Result<(), AllocError>
    requires { HasRoom mark 2 }
    ensures { OnOk result (lines.new.items ≡ lines.old.items ++ straight mark (unary_instrs operator kind)) }
{
    match operator {
        UnaryOperator::Negate => put_wrapped(lines, mark, Instr::Neg, kind),
        UnaryOperator::Invert => put_wrapped(lines, mark, Instr::Inv, kind),
    }
}

/// Puts `not` whose operand is there, under the mark that counts it.
pub fn put_not(lines: &mut Vec<CodeLine>, mark: Mark) -> Result<(), AllocError>
    requires { HasRoom mark 2 }
    ensures { OnOk result (lines.new.items ≡ lines.old.items ++ straight mark not_instrs) }
{
    put_all(lines, mark, &[Instr::Const(0), Instr::Eq])
}

/// How many instructions a comparison has: three where the opposite of the other comparison is taken, else one.
pub fn comparison_size(comparison: Comparison) -> u32
    ensures { result ≡ length (comparison_instrs comparison) }
{
    match comparison {
        Comparison::Greater | Comparison::GreaterEqual => 3,
        _ => 1,
    }
}

/// Puts a comparison whose two operands are there, under the mark that counts them.
pub fn put_comparison(
    lines: &mut Vec<CodeLine>,
    mark: Mark,
    comparison: Comparison,
) -> Result<(), AllocError>
    requires { HasRoom mark 3 }
    ensures { OnOk result (lines.new.items ≡ lines.old.items ++ straight mark (comparison_instrs comparison)) }
{
    match comparison {
        Comparison::Equal => put_all(lines, mark, &[Instr::Eq]),
        Comparison::NotEqual => put_all(lines, mark, &[Instr::Ne]),
        Comparison::Less => put_all(lines, mark, &[Instr::Lt]),
        Comparison::LessEqual => put_all(lines, mark, &[Instr::Le]),
        Comparison::Greater => put_all(lines, mark, &[Instr::Le, Instr::Const(0), Instr::Eq]),
        Comparison::GreaterEqual => put_all(lines, mark, &[Instr::Lt, Instr::Const(0), Instr::Eq]),
    }
}
