// The types of values.

ghost use Rattle.std.specs.Prelude.{◌≡◌};
ghost use Rattle.kern_calls.specs.Types.{binary_type, bits_of, declared_type, literal_type, result_type, wider_type};

use crate::calls::Operation;
use kern_syntax::{BinaryOperator, DeclaredType};

/// The type of an expression or of a name.
#[derive(Clone, Copy, Debug, PartialEq, Eq)]
pub enum ValueType {
    /// A signed integer of 32 bits.
    Int32,
    /// A signed integer of 64 bits.
    Int64,
    /// True or False.
    Bool,
    /// So many integers of 64 bits, 1 to 512.
    Array(u16),
}

/// The wider of two integer types: int32 where both are that, else int64.
pub fn wider(a: ValueType, b: ValueType) -> ValueType
    ensures { result ≡ wider_type a b }
{
    match (a, b) {
        (ValueType::Int32, ValueType::Int32) => ValueType::Int32,
        _ => ValueType::Int64,
    }
}

/// The number of bits at which values of a type wrap: 32 or 64.
pub fn bits_of(kind: ValueType) -> u8
    ensures { result ≡ bits_of kind }
{
    match kind {
        ValueType::Int32 => 32,
        _ => 64,
    }
}

/// The type that a header names.
pub fn declared_type(declared: DeclaredType) -> ValueType
    ensures { result ≡ declared_type declared }
{
    match declared {
        DeclaredType::Int32 => ValueType::Int32,
        DeclaredType::Int64 => ValueType::Int64,
        DeclaredType::Bool => ValueType::Bool,
    }
}

/// The type of a call's value; int64 where it has none.
pub fn result_type(declared: Option<DeclaredType>) -> ValueType
    ensures { result ≡ result_type declared }
{
    match declared {
        Some(declared) => declared_type(declared),
        None => ValueType::Int64,
    }
}

ghost use Rattle.std.specs.Prelude.{option_and_then};
ghost use Rattle.kern_calls.specs.Calls.{operation_result};

/// The type of a method's value; int64 where it has none.
pub fn method_type(method: Option<Operation>) -> ValueType
    ensures { result ≡ result_type (option_and_then operation_result method) }
{
    match method {
        Some(operation) => result_type(operation.result()),
        None => ValueType::Int64,
    }
}

/// The type of a literal: int32 as long as it is one.
pub fn literal_type(value: u64) -> ValueType
    ensures { result ≡ literal_type value }
{
    if value < 1 << 31 {
        ValueType::Int32
    } else {
        ValueType::Int64
    }
}

/// The type of an operator's result: a shift has that of its left operand, any other the wider one.
pub fn binary_type(operator: BinaryOperator, left: ValueType, right: ValueType) -> ValueType
    ensures { result ≡ binary_type operator left right }
{
    match operator {
        BinaryOperator::ShiftLeft | BinaryOperator::ShiftRight => left,
        _ => wider(left, right),
    }
}
