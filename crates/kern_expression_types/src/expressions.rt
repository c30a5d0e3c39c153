// The types of expressions.

ghost use Rattle.std.specs.Prelude.{map};
ghost use Rattle.kern_syntax.specs.Tree.{no_more};
ghost use Rattle.kern_syntax.specs.TreeOf.{expression_of, arguments_of, argument_of};
ghost use Rattle.kern_expression_types.specs.Answers.{Finds};
ghost use Rattle.kern_expression_types.specs.Expressions.{expression_verdict, arguments_verdict, variable_verdict, element_verdict, arithmetic_verdict, comparison_verdict, truth_verdict};
ghost use Rattle.kern_expression_types.specs.KnownOf.{functions_of};
ghost use Rattle.kern_expression_types.specs.Misfits.{called_verdict, first_misfit, fitting_elements_verdict, mapped, taken_by};

use crate::callee::{Callee, check_counted, function_called, method_called, misfit_at};
use crate::fault::{TypeFault, TypeKind};
use crate::fits::{as_compared, as_condition, as_integer, fit, misfit, refuse_some};
use crate::known::Known;
use crate::names::Locals;
use crate::place::{Given, Place};
use kern_calls::{ValueType, Wanted, binary_type, literal_type};
use kern_syntax::{Argument, BinaryOperator, Comparison, Expr};

/// What an expression gives.
#[cycle(expressions)]
pub fn check_expression(
    known: &Known<'_>,
    place: Place,
    names: &Locals<'_>,
    e: &Expr,
) -> Result<Given, TypeFault>
    ensures { Finds result (expression_verdict (functions_of known.now) place names.now (expression_of e.now)) }
{
    match e {
        Expr::Integer(value) => Ok(Given::Typed(literal_type(*value))),
        Expr::True | Expr::False => Ok(Given::Typed(ValueType::Bool)),
        Expr::Variable(name) => check_variable(place.line, names, name.bytes()),
        Expr::Index(array, index) => {
            let index = check_expression(known, place, names, index)?;
            check_element(place.line, names, array.bytes(), index)?;
            Ok(Given::Typed(ValueType::Int64))
        }
        Expr::Group(inner) => check_expression(known, place, names, inner),
        Expr::Unary(_, operand) => {
            let operand = check_expression(known, place, names, operand)?;
            Ok(Given::Typed(as_integer(place.line, operand)?))
        }
        Expr::Binary(operator, left, right) => {
            let left = check_expression(known, place, names, left)?;
            let right = check_expression(known, place, names, right)?;
            check_arithmetic(place.line, *operator, left, right)
        }
        Expr::Compare(comparison, left, right) => {
            let left = check_expression(known, place, names, left)?;
            let right = check_expression(known, place, names, right)?;
            check_comparison(place.line, *comparison, left, right)
        }
        Expr::Not(operand) => {
            let operand = check_expression(known, place, names, operand)?;
            as_condition(place.line, operand)?;
            Ok(Given::Typed(ValueType::Bool))
        }
        Expr::And(left, right) => {
            let left = check_expression(known, place, names, left)?;
            let right = check_expression(known, place, names, right)?;
            check_truth(place.line, left, right)
        }
        Expr::Or(left, right) => {
            let left = check_expression(known, place, names, left)?;
            let right = check_expression(known, place, names, right)?;
            check_truth(place.line, left, right)
        }
        Expr::Call(function, arguments) => {
            let callee = function_called(known, function.bytes());
            check_call(known, place, names, &callee, arguments)
        }
        Expr::Method(object, method, arguments) => {
            let callee = method_called(object.bytes(), method.bytes());
            check_call(known, place, names, &callee, arguments)
        }
    }
}

// A call of this: its arguments come first.
#[cycle(expressions)]
fn check_call(
    known: &Known<'_>,
    place: Place,
    names: &Locals<'_>,
    callee: &Result<Callee<'_>, TypeKind>,
    arguments: &[Argument],
) -> Result<Given, TypeFault>
    ensures { Finds result (called_verdict (functions_of known.now) place names.now callee.now (arguments_of arguments.now)) }
{
    let misfit = check_arguments(known, place, names, callee, arguments)?;
    check_counted(place, callee, arguments.len(), misfit)
}

// The first misfit among the arguments of a call, which are looked at from left to right.
#[cycle(expressions)]
fn check_arguments(
    known: &Known<'_>,
    place: Place,
    names: &Locals<'_>,
    callee: &Result<Callee<'_>, TypeKind>,
    arguments: &[Argument],
) -> Result<Option<TypeKind>, TypeFault>
    ensures { Finds result (mapped (first_misfit (taken_by callee.now)) (arguments_verdict (functions_of known.now) place names.now (arguments_of arguments.now))) }
{
    let mut found = None;
    for (number, argument) in arguments.iter().enumerate() {
        let given = check_argument(known, place, names, argument)?;
        found = found.or(misfit_at(callee, number, given));
    }
    Ok(found)
}

ghost use Rattle.kern_expression_types.specs.Expressions.{argument_verdict};

#[cycle(expressions)]
fn check_argument(
    known: &Known<'_>,
    place: Place,
    names: &Locals<'_>,
    argument: &Argument,
) -> Result<Given, TypeFault>
    ensures { Finds result (argument_verdict (functions_of known.now) place names.now (argument_of argument.now no_more)) }
{
    match argument {
        Argument::Value(e) => check_expression(known, place, names, e),
        Argument::Text(_) => Ok(Given::Text),
    }
}

/// Checks some expressions from left to right, and then that each value fits what is wanted.
pub fn check_elements(
    known: &Known<'_>,
    place: Place,
    names: &Locals<'_>,
    wanted: Wanted,
    elements: &[Expr],
) -> Result<(), TypeFault>
    ensures { Finds result (fitting_elements_verdict (functions_of known.now) place names.now wanted (map expression_of elements.now)) }
{
    let mut found = None;
    for element in elements.iter() {
        let given = check_expression(known, place, names, element)?;
        found = found.or(misfit(wanted, given));
    }
    refuse_some(found, place.line)
}

/// The type of a name that is assigned.
pub fn check_variable(line: u32, names: &Locals<'_>, name: &[u8]) -> Result<Given, TypeFault>
    ensures { Finds result (variable_verdict line names.now name.now) }
{
    match names.get(name) {
        Some(kind) => Ok(Given::Typed(kind)),
        None => Err(TypeFault {
            line,
            kind: TypeKind::Unknown,
        }),
    }
}

/// Checks an element of an array, when what the index gives is known.
pub fn check_element(
    line: u32,
    names: &Locals<'_>,
    array: &[u8],
    index: Given,
) -> Result<(), TypeFault>
    ensures { Finds result (element_verdict line names.now array.now index) }
{
    match names.get(array) {
        Some(kind) => {
            fit(line, Wanted::Array, Given::Typed(kind))?;
            fit(line, Wanted::Int64, index)
        }
        None => Err(TypeFault {
            line,
            kind: TypeKind::Unknown,
        }),
    }
}

fn check_arithmetic(
    line: u32,
    operator: BinaryOperator,
    left: Given,
    right: Given,
) -> Result<Given, TypeFault>
    ensures { Finds result (arithmetic_verdict line operator left right) }
{
    let left = as_integer(line, left)?;
    let right = as_integer(line, right)?;
    Ok(Given::Typed(binary_type(operator, left, right)))
}

fn check_comparison(
    line: u32,
    comparison: Comparison,
    left: Given,
    right: Given,
) -> Result<Given, TypeFault>
    ensures { Finds result (comparison_verdict line comparison left right) }
{
    as_compared(line, comparison, left, right)?;
    Ok(Given::Typed(ValueType::Bool))
}

fn check_truth(line: u32, left: Given, right: Given) -> Result<Given, TypeFault>
    ensures { Finds result (truth_verdict line left right) }
{
    as_condition(line, left)?;
    as_condition(line, right)?;
    Ok(Given::Typed(ValueType::Bool))
}
