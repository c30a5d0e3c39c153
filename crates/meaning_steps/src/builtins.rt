// The functions of the language.

ghost use Rattle.std.specs.Prelude.{◌≡◌, [], is_some, option_map, true, unwrap_or};
ghost use Rattle.kern_calls.specs.Calls.{method_named};
ghost use Rattle.kern_syntax.specs.TreeOf.{arguments_of, expression_of};
ghost use Rattle.meaning_steps.specs.Runnable.{array_argument, has_text, BuiltinIsTold, MethodIsTold};
ghost use Rattle.kern_names.specs.ScopeOf.{scope_of};
ghost use Rattle.meaning_state.specs.Does.{Does};
ghost use Rattle.timeline_sem.specs.Expressions.{array_in, perform_builtin, perform_method, text_in};

use kern_calls::{Builtin, ValueType, method_named};
use kern_names::Scope;
use kern_syntax::{Argument, Expr, Identifier};
use meaning_numbers::low_signed;
use meaning_state::{Early, State, first_number, perform};
use rtio_types::{Name, Request, Value};
use std::alloc::{AllocError, Global};

/// The text among a call's arguments.
pub fn text_of(arguments: &[Argument]) -> Option<Name>
    ensures text { unwrap_or result [] ≡ text_in (arguments_of arguments.now) }
    ensures there { is_some result ≡ has_text (arguments_of arguments.now) }
{
    for argument in arguments.iter() {
        if let Argument::Text(text) = argument {
            return Some(*text);
        }
    }
    None
}

// The name of the array that an expression is, if it is one.
fn array_in<'b>(scope: &Scope<'_>, e: &'b Expr) -> Option<&'b Identifier>
    ensures { option_map (λ x. x.now) result ≡ array_in (scope_of scope.now) (expression_of e.now) }
{
    match e {
        Expr::Variable(x) => match scope.names.kind(x.bytes()) {
            Some(ValueType::Array(_)) => Some(x),
            _ => None,
        },
        Expr::Group(inner) => array_in(scope, inner),
        _ => None,
    }
}

/// The name of the array that is a call's argument, if one is.
pub fn array_argument<'b>(scope: &Scope<'_>, arguments: &'b [Argument]) -> Option<&'b Identifier>
    ensures { option_map (λ x. x.now) result ≡ array_argument (scope_of scope.now) (arguments_of arguments.now) }
{
    for argument in arguments.iter() {
        if let Argument::Value(e) = argument {
            return array_in(scope, e);
        }
    }
    None
}

ghost use Rattle.std.specs.Prelude.{IfOk};
ghost use Rattle.timeline_sem.specs.Actions.{normal};
ghost use Rattle.timeline_sem.specs.Expressions.{array_length, dataset_value};

// The value that a dataset is given: an array, or else a number. The only error is want of memory.
fn dataset_value(
    alloc: Global,
    scope: &Scope<'_>,
    state: &State<'_>,
    arguments: &[Argument],
    number: i64,
) -> Result<Value, AllocError>
    ensures { IfOk result (λ value. dataset_value (scope_of scope.now) (arguments_of arguments.now) number state.now ≡ normal value state.now) }
{
    match array_argument(scope, arguments) {
        Some(array) => state.value(alloc, array.bytes()),
        None => Ok(Value::Int(number)),
    }
}

// The length of the array that is a call's argument.
fn array_length(scope: &Scope<'_>, state: &State<'_>, arguments: &[Argument]) -> i64
    ensures { array_length (scope_of scope.now) (arguments_of arguments.now) state.now ≡ normal result state.now }
{
    match array_argument(scope, arguments) {
        Some(array) => length_of(state.numbers(array.bytes())),
        None => 0,
    }
}

ghost use Rattle.std.specs.Prelude.{length, pos};

// How many numbers there are.
fn length_of(numbers: &[i64]) -> i64
    ensures { result ≡ pos (length numbers.now) }
{
    numbers.len() as i64
}

ghost use Rattle.kern_calls.specs.declared.calls.Builtin.TheVariants as B;

// Sets a dataset.
fn set_dataset(
    alloc: Global,
    scope: &Scope<'_>,
    state: &mut State<'_>,
    arguments: &[Argument],
    numbers: &[i64],
) -> Result<i64, Early>
    requires { has_text (arguments_of arguments.now) ≡ true }
    ensures { Does result state.new (perform_builtin (scope_of scope.now) B.SetDataset (arguments_of arguments.now) numbers.now state.old) }
{
    let value = dataset_value(alloc, scope, state, arguments, first_number(numbers))?;
    match text_of(arguments) {
        Some(name) => {
            state.tell(Request::Data { name, value })?;
            Ok(0)
        }
        None => unreachable!(),
    }
}

/// What a function of the language does with its numbers.
pub fn perform_builtin(
    alloc: Global,
    scope: &Scope<'_>,
    state: &mut State<'_>,
    builtin: Builtin,
    arguments: &[Argument],
    numbers: &[i64],
) -> Result<i64, Early>
    requires { BuiltinIsTold builtin (arguments_of arguments.now) }
    ensures { Does result state.new (perform_builtin (scope_of scope.now) builtin (arguments_of arguments.now) numbers.now state.old) }
{
    let first = first_number(numbers);
    match builtin {
        Builtin::NowMu => Ok(state.cursor()),
        Builtin::AtMu => {
            state.set_cursor(first);
            Ok(0)
        }
        Builtin::DelayMu => {
            state.delay(first);
            Ok(0)
        }
        Builtin::SetDataset => set_dataset(alloc, scope, state, arguments, numbers),
        Builtin::Len => Ok(array_length(scope, state, arguments)),
        Builtin::ToInt32 => Ok(low_signed(first)),
        Builtin::ToInt64 => Ok(first),
    }
}

/// A call of a method, with its numbers.
pub fn perform_method(
    state: &mut State<'_>,
    object: &[u8],
    method: &[u8],
    arguments: &[Argument],
    numbers: &[i64],
) -> Result<i64, Early>
    requires { MethodIsTold (method_named object.now method.now) (arguments_of arguments.now) }
    ensures { Does result state.new (perform_method (method_named object.now method.now) numbers.now (text_in (arguments_of arguments.now)) state.old) }
{
    match method_named(object, method) {
        Some(operation) => perform(state, operation, numbers, text_of(arguments)),
        None => Ok(0),
    }
}
