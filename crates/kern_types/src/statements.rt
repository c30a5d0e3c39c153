// The types of statements without a block, and of the headers of loops.

ghost use Rattle.std.specs.Prelude.{Some, None, map};
ghost use Rattle.kern_syntax.specs.TreeOf.{expression_of, statement_of};
ghost use Rattle.kern_expression_types.specs.Answers.{Finds, Leaves};
ghost use Rattle.kern_expression_types.specs.Expressions.{condition_verdict, fitting_verdict};
ghost use Rattle.kern_expression_types.specs.KnownOf.{functions_of};
ghost use Rattle.kern_types.specs.Statements.{alone_verdict, array_verdict, assigned_verdict, augmented_verdict, bounds_verdict, element_assigned_verdict, element_augmented_verdict, kept_verdict, listed_verdict, loop_verdict, name_augmented_verdict, range_verdict, repeated_verdict, return_verdict, simple_verdict, turn_verdict, value_assigned_verdict, value_verdict};

use kern_calls::{ValueType, Wanted, wider};
use kern_expression_types::{
    Given, Known, Locals, Place, TypeFault, TypeKind, as_condition, as_integer, as_statement,
    check_element, check_elements, check_expression, check_variable, declared_wanted, fit,
    kept_misfit, refuse_if, refuse_some, scalar_of,
};
use kern_syntax::{Expr, StmtKind, Target};

// The most names of a function, its parameters among them.
const MOST_NAMES: usize = 64;

// The longest array.
const LONGEST_ARRAY: u64 = 512;

/// Checks a statement without a block.
pub fn check_simple<'a>(
    known: &Known<'_>,
    place: Place,
    names: &mut Locals<'a>,
    statement: &'a StmtKind,
) -> Result<(), TypeFault>
    ensures { Leaves result names.new (simple_verdict (functions_of known.now) place names.old (statement_of statement.now)) }
{
    match statement {
        StmtKind::Break | StmtKind::Continue => check_turn(place),
        StmtKind::Return(value) => check_return(known, place, names, value),
        StmtKind::Evaluate(e) => check_alone(known, place, names, e),
        StmtKind::Assign(Target::Variable(x), e) => {
            check_assigned(known, place, names, x.bytes(), e)
        }
        StmtKind::Assign(Target::Element(x, i), e) => {
            check_element_assigned(known, place, names, x.bytes(), i, e)
        }
        StmtKind::Augmented(Target::Variable(x), _, e) => {
            check_augmented(known, place, names, x.bytes(), e)
        }
        StmtKind::Augmented(Target::Element(x, i), _, e) => {
            check_element_augmented(known, place, names, x.bytes(), i, e)
        }
        StmtKind::ArrayRepeat(x, e, count) => {
            check_repeated(known, place, names, x.bytes(), e, *count)
        }
        StmtKind::ArrayList(x, elements) => {
            check_listed(known, place, names, x.bytes(), elements)
        }
        _ => Ok(()),
    }
}

fn check_turn(place: Place) -> Result<(), TypeFault>
    ensures { Finds result (turn_verdict place) }
{
    refuse_if(!place.in_loop, place.line, TypeKind::BlockExit)
}

ghost use Rattle.std.specs.Prelude.{option_map};

fn check_return(
    known: &Known<'_>,
    place: Place,
    names: &Locals<'_>,
    value: &Option<Expr>,
) -> Result<(), TypeFault>
    ensures { Finds result (return_verdict (functions_of known.now) place names.now (option_map expression_of value.now)) }
{
    check_value(known, place, names, value)?;
    refuse_if(!place.may_return, place.line, TypeKind::BlockExit)
}

// The value of a `return`, against the function's result.
fn check_value(
    known: &Known<'_>,
    place: Place,
    names: &Locals<'_>,
    value: &Option<Expr>,
) -> Result<(), TypeFault>
    ensures { Finds result (value_verdict (functions_of known.now) place names.now place.result (option_map expression_of value.now)) }
{
    let arity = TypeFault {
        line: place.line,
        kind: TypeKind::Arity,
    };
    match value {
        None => match place.result {
            None => Ok(()),
            Some(_) => Err(arity),
        },
        Some(e) => {
            let given = check_expression(known, place, names, e)?;
            match place.result {
                None => Err(arity),
                Some(declared) => fit(place.line, declared_wanted(declared), given),
            }
        }
    }
}

fn check_alone(
    known: &Known<'_>,
    place: Place,
    names: &Locals<'_>,
    e: &Expr,
) -> Result<(), TypeFault>
    ensures { Finds result (alone_verdict (functions_of known.now) place names.now (expression_of e.now)) }
{
    let given = check_expression(known, place, names, e)?;
    as_statement(place.line, given)
}

/// Checks a condition.
pub fn check_condition(
    known: &Known<'_>,
    place: Place,
    names: &Locals<'_>,
    e: &Expr,
) -> Result<(), TypeFault>
    ensures { Finds result (condition_verdict (functions_of known.now) place names.now (expression_of e.now)) }
{
    let given = check_expression(known, place, names, e)?;
    as_condition(place.line, given)
}

// An expression that fits an int64.
fn check_fitting(
    known: &Known<'_>,
    place: Place,
    names: &Locals<'_>,
    e: &Expr,
) -> Result<(), TypeFault>
    ensures { Finds result (fitting_verdict (functions_of known.now) place names.now W.Int64 (expression_of e.now)) }
{
    let given = check_expression(known, place, names, e)?;
    fit(place.line, Wanted::Int64, given)
}

ghost use Rattle.kern_calls.specs.declared.wanted.Wanted.TheVariants as W;

fn check_assigned<'a>(
    known: &Known<'_>,
    place: Place,
    names: &mut Locals<'a>,
    name: &'a [u8],
    value: &Expr,
) -> Result<(), TypeFault>
    ensures { Leaves result names.new (value_assigned_verdict (functions_of known.now) place names.old name.now (expression_of value.now)) }
{
    let given = check_expression(known, place, names, value)?;
    assign(known, place, names, name, scalar_of(given))
}

// A value of a type, if it is one that a name can take, is assigned to a name.
fn assign<'a>(
    known: &Known<'_>,
    place: Place,
    names: &mut Locals<'a>,
    name: &'a [u8],
    value: Option<ValueType>,
) -> Result<(), TypeFault>
    ensures { Leaves result names.new (assigned_verdict (functions_of known.now) place names.old name.now value) }
{
    refuse_if(known.is_taken(name), place.line, TypeKind::Name)?;
    keep(place, names, name, value)
}

ghost use Rattle.kern_calls.specs.Calls.{look_up};

// A new name takes the type of its first value, and a later value has to fit it.
fn keep<'a>(
    place: Place,
    names: &mut Locals<'a>,
    name: &'a [u8],
    value: Option<ValueType>,
) -> Result<(), TypeFault>
    ensures { Leaves result names.new (kept_verdict place names.old name.now value (look_up names.old name.now)) }
{
    let mismatch = TypeFault {
        line: place.line,
        kind: TypeKind::Mismatch,
    };
    match names.get(name) {
        None => {
            refuse_if(names.len() >= MOST_NAMES, place.line, TypeKind::Size)?;
            match value {
                Some(kind) => {
                    names.add(name, kind);
                    Ok(())
                }
                None => Err(mismatch),
            }
        }
        Some(held) => match value {
            Some(kind) => refuse_some(kept_misfit(held, kind), place.line),
            None => Err(mismatch),
        },
    }
}

fn check_element_assigned(
    known: &Known<'_>,
    place: Place,
    names: &Locals<'_>,
    array: &[u8],
    index: &Expr,
    value: &Expr,
) -> Result<(), TypeFault>
    ensures { Finds result (element_assigned_verdict (functions_of known.now) place names.now array.now (expression_of index.now) (expression_of value.now)) }
{
    let given = check_expression(known, place, names, value)?;
    let index = check_expression(known, place, names, index)?;
    check_element(place.line, names, array, index)?;
    fit(place.line, Wanted::Int64, given)
}

fn check_augmented(
    known: &Known<'_>,
    place: Place,
    names: &Locals<'_>,
    name: &[u8],
    value: &Expr,
) -> Result<(), TypeFault>
    ensures { Finds result (name_augmented_verdict (functions_of known.now) place names.now name.now (expression_of value.now)) }
{
    let held = check_variable(place.line, names, name)?;
    let added = check_expression(known, place, names, value)?;
    augment(place.line, held, added)
}

// A number is added to what a name holds.
fn augment(line: u32, held: Given, added: Given) -> Result<(), TypeFault>
    ensures { Finds result (augmented_verdict line held added) }
{
    let held = as_integer(line, held)?;
    let added = as_integer(line, added)?;
    refuse_some(kept_misfit(held, wider(held, added)), line)
}

fn check_element_augmented(
    known: &Known<'_>,
    place: Place,
    names: &Locals<'_>,
    array: &[u8],
    index: &Expr,
    value: &Expr,
) -> Result<(), TypeFault>
    ensures { Finds result (element_augmented_verdict (functions_of known.now) place names.now array.now (expression_of index.now) (expression_of value.now)) }
{
    let index = check_expression(known, place, names, index)?;
    check_element(place.line, names, array, index)?;
    check_fitting(known, place, names, value)
}

fn check_repeated<'a>(
    known: &Known<'_>,
    place: Place,
    names: &mut Locals<'a>,
    name: &'a [u8],
    value: &Expr,
    count: u64,
) -> Result<(), TypeFault>
    ensures { Leaves result names.new (repeated_verdict (functions_of known.now) place names.old name.now (expression_of value.now) count) }
{
    check_fitting(known, place, names, value)?;
    assign_array(known, place, names, name, count)
}

fn check_listed<'a>(
    known: &Known<'_>,
    place: Place,
    names: &mut Locals<'a>,
    name: &'a [u8],
    elements: &[Expr],
) -> Result<(), TypeFault>
    ensures { Leaves result names.new (listed_verdict (functions_of known.now) place names.old name.now (map expression_of elements.now)) }
{
    check_elements(known, place, names, Wanted::Int64, elements)?;
    assign_array(known, place, names, name, elements.len() as u64)
}

// An array of a length is assigned to a name.
fn assign_array<'a>(
    known: &Known<'_>,
    place: Place,
    names: &mut Locals<'a>,
    name: &'a [u8],
    count: u64,
) -> Result<(), TypeFault>
    ensures { Leaves result names.new (array_verdict (functions_of known.now) place names.old name.now count) }
{
    if count < 1 || count > LONGEST_ARRAY {
        return Err(TypeFault {
            line: place.line,
            kind: TypeKind::Size,
        });
    }
    let kind = ValueType::Array(count as u16);
    assign(known, place, names, name, Some(kind))
}

/// Checks the header of a loop from 0.
pub fn check_loop_to<'a>(
    known: &Known<'_>,
    place: Place,
    names: &mut Locals<'a>,
    name: &'a [u8],
    to: &Expr,
) -> Result<(), TypeFault>
    ensures { Leaves result names.new (loop_verdict (functions_of known.now) place names.old name.now None (expression_of to.now)) }
{
    let to = check_expression(known, place, names, to)?;
    let kind = as_integer(place.line, to)?;
    assign(known, place, names, name, Some(kind))
}

/// Checks the header of a loop between two bounds.
pub fn check_loop_from_to<'a>(
    known: &Known<'_>,
    place: Place,
    names: &mut Locals<'a>,
    name: &'a [u8],
    from: &Expr,
    to: &Expr,
) -> Result<(), TypeFault>
    ensures { Leaves result names.new (loop_verdict (functions_of known.now) place names.old name.now (Some (expression_of from.now)) (expression_of to.now)) }
{
    let kind = check_range(known, place, names, from, to)?;
    assign(known, place, names, name, Some(kind))
}

fn check_range(
    known: &Known<'_>,
    place: Place,
    names: &Locals<'_>,
    from: &Expr,
    to: &Expr,
) -> Result<ValueType, TypeFault>
    ensures { Finds result (range_verdict (functions_of known.now) place names.now (Some (expression_of from.now)) (expression_of to.now)) }
{
    let from = check_expression(known, place, names, from)?;
    let to = check_expression(known, place, names, to)?;
    check_bounds(place.line, from, to)
}

fn check_bounds(line: u32, from: Given, to: Given) -> Result<ValueType, TypeFault>
    ensures { Finds result (bounds_verdict line from to) }
{
    let from = as_integer(line, from)?;
    let to = as_integer(line, to)?;
    Ok(wider(from, to))
}
