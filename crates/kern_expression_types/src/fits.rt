// Which values fit where a type is wanted.

ghost use Rattle.std.specs.Prelude.{◌≡◌};
ghost use Rattle.kern_expression_types.specs.Answers.{Finds};
ghost use Rattle.kern_expression_types.specs.Fits.{misfit, declared_wanted, given_result, kept_misfit, scalar_of, fit, as_condition, as_integer, as_ordered, as_equals, as_compared, as_statement};
ghost use Rattle.kern_expression_types.specs.Verdicts.{refuse_if, refuse_some};

use crate::fault::{TypeFault, TypeKind};
use crate::place::Given;
use kern_calls::{ValueType, Wanted, declared_type};
use kern_syntax::{Comparison, DeclaredType};

/// A fault where the test says so.
pub fn refuse_if(refused: bool, line: u32, kind: TypeKind) -> Result<(), TypeFault>
    ensures { Finds result (refuse_if refused line kind) }
{
    if refused {
        Err(TypeFault { line, kind })
    } else {
        Ok(())
    }
}

/// A fault of a kind, if it is one.
pub fn refuse_some(kind: Option<TypeKind>, line: u32) -> Result<(), TypeFault>
    ensures { Finds result (refuse_some kind line) }
{
    match kind {
        Some(kind) => Err(TypeFault { line, kind }),
        None => Ok(()),
    }
}

/// What a parameter of a declared type takes.
pub fn declared_wanted(declared: DeclaredType) -> Wanted
    ensures { result ≡ declared_wanted declared }
{
    match declared {
        DeclaredType::Int32 => Wanted::Int32,
        DeclaredType::Int64 => Wanted::Int64,
        DeclaredType::Bool => Wanted::Bool,
    }
}

/// What a call gives whose value has this type, if it has one.
pub fn given_result(declared: Option<DeclaredType>) -> Given
    ensures { result ≡ given_result declared }
{
    match declared {
        Some(declared) => Given::Typed(declared_type(declared)),
        None => Given::Nothing,
    }
}

/// The fault of a value where another is wanted, if there is one.
pub fn misfit(wanted: Wanted, given: Given) -> Option<TypeKind>
    ensures { result ≡ misfit wanted given }
{
    match (wanted, given) {
        (Wanted::Int32, Given::Typed(ValueType::Int64)) => Some(TypeKind::Width),
        (Wanted::Int32, Given::Typed(ValueType::Int32)) => None,
        (Wanted::Int64, Given::Typed(ValueType::Int32 | ValueType::Int64)) => None,
        (Wanted::Bool, Given::Typed(ValueType::Bool)) => None,
        (Wanted::Text, Given::Text) => None,
        (Wanted::Array, Given::Typed(ValueType::Array(_))) => None,
        (Wanted::Int64OrArray, Given::Typed(ValueType::Int32 | ValueType::Int64)) => None,
        (Wanted::Int64OrArray, Given::Typed(ValueType::Array(_))) => None,
        _ => Some(TypeKind::Mismatch),
    }
}

/// The fault of a value that a name of a type is assigned, if there is one.
pub fn kept_misfit(held: ValueType, assigned: ValueType) -> Option<TypeKind>
    ensures { result ≡ kept_misfit held assigned }
{
    match (held, assigned) {
        (ValueType::Int32, _) => misfit(Wanted::Int32, Given::Typed(assigned)),
        (ValueType::Int64, _) => misfit(Wanted::Int64, Given::Typed(assigned)),
        (ValueType::Bool, _) => misfit(Wanted::Bool, Given::Typed(assigned)),
        (ValueType::Array(n), ValueType::Array(m)) if m == n => None,
        (ValueType::Array(_), _) => Some(TypeKind::Mismatch),
    }
}

/// The type of a value that a name can take from an expression.
pub fn scalar_of(given: Given) -> Option<ValueType>
    ensures { result ≡ scalar_of given }
{
    match given {
        Given::Typed(ValueType::Array(_)) | Given::Nothing | Given::Text => None,
        Given::Typed(kind) => Some(kind),
    }
}

/// Checks that a value fits what is wanted.
pub fn fit(line: u32, wanted: Wanted, given: Given) -> Result<(), TypeFault>
    ensures { Finds result (fit line wanted given) }
{
    refuse_some(misfit(wanted, given), line)
}

/// Checks a condition, or an operand of `and`, `or` and `not`.
pub fn as_condition(line: u32, given: Given) -> Result<(), TypeFault>
    ensures { Finds result (as_condition line given) }
{
    match given {
        Given::Typed(ValueType::Bool) => Ok(()),
        _ => Err(TypeFault {
            line,
            kind: TypeKind::NotBool,
        }),
    }
}

/// The type of an integer.
pub fn as_integer(line: u32, given: Given) -> Result<ValueType, TypeFault>
    ensures { Finds result (as_integer line given) }
{
    match given {
        Given::Typed(ValueType::Int32) => Ok(ValueType::Int32),
        Given::Typed(ValueType::Int64) => Ok(ValueType::Int64),
        _ => Err(TypeFault {
            line,
            kind: TypeKind::Mismatch,
        }),
    }
}

// Checks that two operands are integers, or truth values.
fn as_equals(line: u32, left: Given, right: Given) -> Result<(), TypeFault>
    ensures { Finds result (as_equals line left right) }
{
    match (left, right) {
        (Given::Typed(ValueType::Bool), Given::Typed(ValueType::Bool)) => Ok(()),
        (Given::Typed(ValueType::Bool), _) => Err(TypeFault {
            line,
            kind: TypeKind::Mismatch,
        }),
        _ => as_ordered(line, left, right),
    }
}

// Checks that two operands are integers.
fn as_ordered(line: u32, left: Given, right: Given) -> Result<(), TypeFault>
    ensures { Finds result (as_ordered line left right) }
{
    as_integer(line, left)?;
    as_integer(line, right)?;
    Ok(())
}

/// Checks the operands of a comparison.
pub fn as_compared(
    line: u32,
    comparison: Comparison,
    left: Given,
    right: Given,
) -> Result<(), TypeFault>
    ensures { Finds result (as_compared line comparison left right) }
{
    match comparison {
        Comparison::Equal | Comparison::NotEqual => as_equals(line, left, right),
        _ => as_ordered(line, left, right),
    }
}

/// Checks an expression that stands alone.
pub fn as_statement(line: u32, given: Given) -> Result<(), TypeFault>
    ensures { Finds result (as_statement line given) }
{
    match given {
        Given::Typed(ValueType::Array(_)) => Err(TypeFault {
            line,
            kind: TypeKind::Mismatch,
        }),
        _ => Ok(()),
    }
}
