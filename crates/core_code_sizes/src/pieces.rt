// What the code of a part depends on beside the code of its own parts: literals, whether a call has a value, and whether a block
// has a second statement.

ghost use Rattle.std.specs.Prelude.{◌≡◌};
ghost use Rattle.kern_syntax.specs.TreeOf.{expression_of, lines_of};
ghost use Rattle.code_forms.specs.Operations.{bounded_type, literal, negated, wrapped_type};
ghost use Rattle.code_forms.specs.Sizes.{parallel_begin_size, has_second, unless, when};

use kern_calls::ValueType;
use kern_syntax::{BinaryOperator, Expr, Stmt, UnaryOperator};

/// The number of an expression that is an integer.
pub fn literal(e: &Expr) -> Option<u64>
    ensures { result ≡ literal (expression_of e.now) }
{
    match e {
        Expr::Integer(value) => Some(*value),
        _ => None,
    }
}

/// The integer whose `-` is taken, where it is an integer's.
pub fn negated(operator: UnaryOperator, operand: &Expr) -> Option<u64>
    ensures { result ≡ negated operator (literal (expression_of operand.now)) }
{
    match operator {
        UnaryOperator::Negate => literal(operand),
        UnaryOperator::Invert => None,
    }
}

/// The type at which an operator's result is wrapped, by its operands: a remainder by an integer, and the bits in common with one,
/// can't leave the width of their type, so nothing is left to do.
pub fn wrapped_type(
    operator: BinaryOperator,
    left: &Expr,
    right: &Expr,
    kind: ValueType,
) -> ValueType
    ensures { result ≡ wrapped_type operator (literal (expression_of left.now)) (literal (expression_of right.now)) kind }
{
    match operator {
        BinaryOperator::Remainder => bounded_type(literal(right), kind),
        BinaryOperator::BitAnd => bounded_type(literal(left), bounded_type(literal(right), kind)),
        _ => kind,
    }
}

// The type at which a result is wrapped that is at least 0: where an integer of the text bounds it, nothing is left to do.
fn bounded_type(bound: Option<u64>, kind: ValueType) -> ValueType
    ensures { result ≡ bounded_type bound kind }
{
    match bound {
        Some(_) => ValueType::Int64,
        None => kind,
    }
}

/// Whether of these statements there is a second one.
#[tactic(auto, using(crate::proofs::Blocks::second_line))]
pub fn has_second(statements: &[Stmt]) -> bool
    ensures { result ≡ has_second (lines_of statements.now) }
{
    statements.len() > 1
}

/// What a parallel block keeps when it begins takes four instructions with a second statement, whose start is kept, and else two.
pub fn parallel_begin_size(second: bool) -> u32
    ensures { result ≡ parallel_begin_size second }
{
    if second { 4 } else { 2 }
}

/// One instruction more where there is no value.
pub fn unless(has_value: bool) -> u32
    ensures { result ≡ unless has_value }
{
    if has_value { 0 } else { 1 }
}

/// One instruction more where there is a value.
pub fn when(has_value: bool) -> u32
    ensures { result ≡ when has_value }
{
    if has_value { 1 } else { 0 }
}
