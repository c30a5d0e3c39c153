// The numbers that expressions are where nothing is asked, called or raised on the way: most of a kernel's arithmetic.
//
// A number is handed back by itself, and what it is worth through a reference. A result of several words would go through
// memory, and a call clears the room for each result that its calls may leave there: that takes longer than the rest.

ghost use Rattle.std.specs.Prelude.{◌≡◌, true, IfSome, ℤ};
ghost use Rattle.kern_syntax.specs.Tree as T;
ghost use Rattle.kern_syntax.specs.TreeOf.{expression_of};
ghost use Rattle.kern_calls.specs.Types as Y;
ghost use Rattle.kern_calls.specs.declared.types.ValueType.TheVariants.{Int64};
ghost use Rattle.kern_names.specs.ScopeOf.{scope_of};
ghost use Rattle.meaning_steps.specs.Runnable.{IsRunnable};
ghost use Rattle.slack_meaning.specs.Actions.{State as Run};
ghost use Rattle.slack_steps.specs.Known.{IsKnownAs, Tells};

use crate::kinds::begins_long;
use crate::operating::{plain_result, typed_result};
use kern_calls::ValueType;
use kern_names::{Scope, type_of};
use kern_syntax::{BinaryOperator, Comparison, Expr, Identifier, UnaryOperator};
use meaning_numbers::{changed, compared};
use meaning_steps::{is_true, number_of};
use slack_meaning::Span;
use slack_state::{State, exactly, is_number};

// What a number that was found is worth.
#[derive(Clone, Copy)]
enum Found {
    // It says nothing.
    Nothing,
    // It is the expression's value.
    Number,
    // So it is, and the expression is an int64.
    Long,
}

/// The number that an expression is, where its names, literals and operators alone tell it: nothing is asked, called or raised,
/// and no span is met.
#[inline(always)]
pub fn known_number(scope: &Scope<'_>, state: &State, e: &Expr) -> Option<i64>
    requires { IsRunnable (expression_of e.now) }
    ensures { IfSome result (IsKnownAs (scope_of scope.now) (expression_of e.now) state.now) }
{
    let mut found = Found::Nothing;
    let number = find(scope, state, e, &mut found);
    told_number(found, number)
}

// The number, if it is the value.
fn told_number(found: Found, number: i64) -> Option<i64>
    ensures { (scope : Y.Scope) (e : T.Expression) (s : Run) → Tells found number scope e s → IfSome result (IsKnownAs scope e s) }
{
    match found {
        Found::Nothing => None,
        Found::Number => Some(number),
        Found::Long => Some(number),
    }
}

// What a literal or a name is needs no call of its own.
#[inline(always)]
#[cycle(known)]
fn find(scope: &Scope<'_>, state: &State, e: &Expr, found: &mut Found) -> i64
    requires { IsRunnable (expression_of e.now) }
    ensures { Tells found.new result (scope_of scope.now) (expression_of e.now) state.now }
{
    match e {
        Expr::Integer(value) => {
            *found = Found::Number;
            *value as i64
        }
        Expr::Variable(x) => find_name(state, x, found),
        _ => find_parts(scope, state, e, found),
    }
}

#[inline(never)]
#[cycle(known)]
fn find_parts(scope: &Scope<'_>, state: &State, e: &Expr, found: &mut Found) -> i64
    requires { IsRunnable (expression_of e.now) }
    ensures { Tells found.new result (scope_of scope.now) (expression_of e.now) state.now }
{
    match e {
        Expr::True => {
            *found = Found::Number;
            1
        }
        Expr::False => {
            *found = Found::Number;
            0
        }
        Expr::Index(array, index) => {
            let place = find(scope, state, index, found);
            find_element(state, array, place, found)
        }
        Expr::Group(inner) => find(scope, state, inner, found),
        Expr::Unary(operator, operand) => {
            let a = find(scope, state, operand, found);
            find_unary(scope, *operator, operand, a, found)
        }
        Expr::Binary(operator, left, right) => {
            let a = find(scope, state, left, found);
            let first = *found;
            let b = find(scope, state, right, found);
            find_binary(scope, *operator, e, first, a, b, found)
        }
        Expr::Compare(comparison, left, right) => {
            let a = find(scope, state, left, found);
            let first = *found;
            let b = find(scope, state, right, found);
            find_comparison(*comparison, first, a, b, found)
        }
        Expr::Not(operand) => {
            let a = find(scope, state, operand, found);
            find_negation(a, found)
        }
        Expr::And(left, right) => {
            let a = find(scope, state, left, found);
            let first = *found;
            let b = find(scope, state, right, found);
            find_conjunction(first, a, b, found)
        }
        Expr::Or(left, right) => {
            let a = find(scope, state, left, found);
            let first = *found;
            let b = find(scope, state, right, found);
            find_disjunction(first, a, b, found)
        }
        _ => nothing(found),
    }
}

// Nothing is found.
fn nothing(found: &mut Found) -> i64
    ensures { (n : ℤ) (scope : Y.Scope) (e : T.Expression) (s : Run) → Tells found.new n scope e s }
{
    *found = Found::Nothing;
    0
}

// Whether a number is the value.
fn is_told(found: Found) -> bool
    ensures { (n : ℤ) (scope : Y.Scope) (e : T.Expression) (s : Run) → Tells found n scope e s → result ≡ true → IsKnownAs scope e s n }
{
    !matches!(found, Found::Nothing)
}

// Whether it is an int64.
fn is_long(found: Found) -> bool
    ensures { (n : ℤ) (scope : Y.Scope) (e : T.Expression) (s : Run) → Tells found n scope e s → result ≡ true → Y.type_of scope e ≡ Int64 }
{
    matches!(found, Found::Long)
}

// What a value of a type is worth.
fn of_type(kind: ValueType) -> Found
    ensures { (n : ℤ) (scope : Y.Scope) (e : T.Expression) (s : Run) → kind ≡ Y.type_of scope e → IsKnownAs scope e s n → Tells result n scope e s }
{
    match kind {
        ValueType::Int64 => Found::Long,
        _ => Found::Number,
    }
}

// What a value is worth that is also another expression's.
fn untyped(found: Found) -> Found
    ensures { (n : ℤ) (scope : Y.Scope) (e other : T.Expression) (s : Run) → Tells found n scope e s →
        (IsKnownAs scope e s n → IsKnownAs scope other s n) → Tells result n scope other s }
{
    match found {
        Found::Nothing => Found::Nothing,
        _ => Found::Number,
    }
}

// The type of an expression, which may be known to be int64.
fn kind_of(scope: &Scope<'_>, e: &Expr, is_int64: bool) -> ValueType
    ensures { (is_int64 ≡ true → Y.type_of (scope_of scope.now) (expression_of e.now) ≡ Int64) →
        result ≡ Y.type_of (scope_of scope.now) (expression_of e.now) }
{
    if is_int64 {
        ValueType::Int64
    } else if begins_long(scope, e) {
        ValueType::Int64
    } else {
        type_of(scope, e)
    }
}

// What a name holds.
#[inline(always)]
fn find_name(state: &State, x: &Identifier, found: &mut Found) -> i64
    ensures { (scope : Y.Scope) → Tells found.new result scope (T.variable x.now) state.now }
{
    let span = state.span(x.bytes());
    if !is_number(span) {
        return nothing(found);
    }
    *found = Found::Number;
    span.least
}

// What a span is as an int64: a number, or nothing that is known.
fn find_span(span: Span, found: &mut Found) -> i64
    ensures { IsSpan found.new result span }
{
    if !is_number(span) {
        *found = Found::Nothing;
        return 0;
    }
    *found = Found::Long;
    span.least
}

ghost use Rattle.slack_steps.specs.Known.{IsSpan};

// An element of an array. It stands apart because what its reading may end with takes much room.
#[inline(never)]
fn find_element(state: &State, x: &Identifier, place: i64, found: &mut Found) -> i64
    ensures { (scope : Y.Scope) (i : T.Expression) → Tells found.old place scope i state.now → Tells found.new result scope (T.element x.now i) state.now }
{
    if !is_told(*found) {
        return nothing(found);
    }
    match state.element(x.bytes(), exactly(place)) {
        Ok(span) => find_span(span, found),
        Err(_) => nothing(found),
    }
}

#[inline(never)]
fn find_unary(
    scope: &Scope<'_>,
    operator: UnaryOperator,
    operand: &Expr,
    a: i64,
    found: &mut Found,
) -> i64
    ensures { (s : Run) → Tells found.old a (scope_of scope.now) (expression_of operand.now) s →
        Tells found.new result (scope_of scope.now) (T.unary operator (expression_of operand.now)) s }
{
    if !is_told(*found) {
        return nothing(found);
    }
    let kind = kind_of(scope, operand, is_long(*found));
    *found = of_type(kind);
    changed(operator, kind, a)
}

fn find_binary(
    scope: &Scope<'_>,
    operator: BinaryOperator,
    e: &Expr,
    first: Found,
    a: i64,
    b: i64,
    found: &mut Found,
) -> i64
    ensures { (left right : T.Expression) (s : Run) → expression_of e.now ≡ T.binary operator left right →
        Tells first a (scope_of scope.now) left s → Tells found.old b (scope_of scope.now) right s →
        Tells found.new result (scope_of scope.now) (expression_of e.now) s }
{
    if !is_told(first) {
        return nothing(found);
    }
    if !is_told(*found) {
        return nothing(found);
    }
    find_result(scope, operator, e, is_long(first), a, b, found)
}

// The result of an operator on two numbers: at its type, which is int64 where the left operand is known to be one, unless it is
// the same at each.
fn find_result(
    scope: &Scope<'_>,
    operator: BinaryOperator,
    e: &Expr,
    is_int64: bool,
    m: i64,
    n: i64,
    found: &mut Found,
) -> i64
    ensures { (left right : T.Expression) (s : Run) → expression_of e.now ≡ T.binary operator left right →
        (is_int64 ≡ true → Y.type_of (scope_of scope.now) left ≡ Int64) →
        IsKnownAs (scope_of scope.now) left s m → IsKnownAs (scope_of scope.now) right s n →
        Tells found.new result (scope_of scope.now) (expression_of e.now) s }
{
    match plain_result(operator, m, n) {
        Some(number) => {
            *found = Found::Number;
            number
        }
        None => find_typed(scope, operator, e, is_int64, m, n, found),
    }
}

#[inline(never)]
fn find_typed(
    scope: &Scope<'_>,
    operator: BinaryOperator,
    e: &Expr,
    is_int64: bool,
    m: i64,
    n: i64,
    found: &mut Found,
) -> i64
    ensures { (left right : T.Expression) (s : Run) → expression_of e.now ≡ T.binary operator left right →
        (is_int64 ≡ true → Y.type_of (scope_of scope.now) left ≡ Int64) →
        IsKnownAs (scope_of scope.now) left s m → IsKnownAs (scope_of scope.now) right s n →
        Tells found.new result (scope_of scope.now) (expression_of e.now) s }
{
    let kind = kind_of(scope, e, is_int64);
    match typed_result(operator, kind, m, n) {
        Some(number) => {
            *found = of_type(kind);
            number
        }
        None => nothing(found),
    }
}

fn find_comparison(comparison: Comparison, first: Found, a: i64, b: i64, found: &mut Found) -> i64
    ensures { (scope : Y.Scope) (left right : T.Expression) (s : Run) → Tells first a scope left s → Tells found.old b scope right s →
        Tells found.new result scope (T.compare comparison left right) s }
{
    if !is_told(first) {
        return nothing(found);
    }
    if !is_told(*found) {
        return nothing(found);
    }
    *found = Found::Number;
    number_of(compared(comparison, a, b))
}

fn find_negation(a: i64, found: &mut Found) -> i64
    ensures { (scope : Y.Scope) (e : T.Expression) (s : Run) → Tells found.old a scope e s → Tells found.new result scope (T.negation e) s }
{
    if !is_told(*found) {
        return nothing(found);
    }
    *found = Found::Number;
    number_of(!is_true(a))
}

fn find_conjunction(first: Found, a: i64, b: i64, found: &mut Found) -> i64
    ensures { (scope : Y.Scope) (left right : T.Expression) (s : Run) → Tells first a scope left s → Tells found.old b scope right s →
        Tells found.new result scope (T.conjunction left right) s }
{
    if !is_told(first) {
        return nothing(found);
    }
    if !is_true(a) {
        *found = Found::Number;
        return 0;
    }
    *found = untyped(*found);
    b
}

fn find_disjunction(first: Found, a: i64, b: i64, found: &mut Found) -> i64
    ensures { (scope : Y.Scope) (left right : T.Expression) (s : Run) → Tells first a scope left s → Tells found.old b scope right s →
        Tells found.new result scope (T.disjunction left right) s }
{
    if !is_told(first) {
        return nothing(found);
    }
    if is_true(a) {
        *found = Found::Number;
        return 1;
    }
    *found = untyped(*found);
    b
}
