// The functions of the language.

ghost use Rattle.std.specs.Prelude.{◌≡◌, length, pos};
ghost use Rattle.kern_names.specs.ScopeOf.{scope_of};
ghost use Rattle.kern_syntax.specs.TreeOf.{arguments_of};
ghost use Rattle.slack_meaning.specs.Actions.{normal};
ghost use Rattle.slack_meaning.specs.Expressions.{array_length, perform_builtin, perform_method};
ghost use Rattle.slack_state.specs.Does.{Does, DoesAlways};
ghost use Rattle.slack_steps.specs.Datasets.{gives_numbers};

use kern_calls::{Builtin, method_named};
use kern_names::Scope;
use kern_syntax::Argument;
use meaning_numbers::low_signed;
use meaning_steps::{array_argument, text_of};
use slack_meaning::{OpenKind, Span};
use slack_state::{Early, Reason, State, exactly, first_span, is_number, perform};

// Whether no span is among what a dataset is given.
fn gives_numbers(scope: &Scope<'_>, state: &State, arguments: &[Argument], span: Span) -> bool
    ensures { gives_numbers (scope_of scope.now) (arguments_of arguments.now) span state.now ≡ normal result state.now }
{
    match array_argument(scope, arguments) {
        Some(array) => state.holds_numbers(array.bytes()),
        None => is_number(span),
    }
}

ghost use Rattle.kern_calls.specs.declared.calls.Builtin.TheVariants as B;

// Sets a dataset: to numbers, which no span is.
fn set_dataset(
    scope: &Scope<'_>,
    state: &mut State,
    arguments: &[Argument],
    spans: &[Span],
) -> Result<Span, Reason>
    ensures { DoesAlways result state.new (perform_builtin (scope_of scope.now) B.SetDataset (arguments_of arguments.now) spans.now state.old) }
{
    if !gives_numbers(scope, state, arguments, first_span(spans)) {
        return Err(state.unknown(OpenKind::Span));
    }
    state.take_unit()?;
    state.answer();
    Ok(exactly(0))
}

// The length of the array that is a call's argument.
fn array_length(scope: &Scope<'_>, state: &State, arguments: &[Argument]) -> Span
    ensures { array_length (scope_of scope.now) (arguments_of arguments.now) state.now ≡ normal result state.now }
{
    match array_argument(scope, arguments) {
        Some(array) => exactly(length_of(state.spans(array.bytes()))),
        None => exactly(0),
    }
}

// How many values there are.
fn length_of(spans: &[Span]) -> i64
    ensures { result ≡ pos (length spans.now) }
{
    spans.len() as i64
}

/// What a function of the language does with its values: times are in machine units (mu), and 0 stands for no value.
pub fn perform_builtin(
    scope: &Scope<'_>,
    state: &mut State,
    builtin: Builtin,
    arguments: &[Argument],
    spans: &[Span],
) -> Result<Span, Reason>
    ensures { DoesAlways result state.new (perform_builtin (scope_of scope.now) builtin (arguments_of arguments.now) spans.now state.old) }
{
    let first = first_span(spans);
    match builtin {
        Builtin::NowMu => Ok(state.cursor()),
        Builtin::AtMu => {
            state.set_cursor(first);
            Ok(exactly(0))
        }
        Builtin::DelayMu => {
            state.delay(first)?;
            Ok(exactly(0))
        }
        Builtin::SetDataset => set_dataset(scope, state, arguments, spans),
        Builtin::Len => Ok(array_length(scope, state, arguments)),
        Builtin::ToInt32 => Ok(exactly(low_signed(state.number(first)?))),
        Builtin::ToInt64 => Ok(exactly(state.number(first)?)),
    }
}

ghost use Rattle.kern_calls.specs.Calls.{method_named};
ghost use Rattle.meaning_steps.specs.Runnable.{MethodIsTold};
ghost use Rattle.timeline_sem.specs.Expressions.{text_in};

/// A call of a method, with its values.
pub fn perform_method(
    state: &mut State,
    object: &[u8],
    method: &[u8],
    arguments: &[Argument],
    spans: &[Span],
) -> Result<Span, Early>
    requires { MethodIsTold (method_named object.now method.now) (arguments_of arguments.now) }
    ensures { Does result state.new (perform_method (method_named object.now method.now) spans.now (text_in (arguments_of arguments.now)) state.old) }
{
    match method_named(object, method) {
        Some(operation) => perform(state, operation, spans, text_of(arguments)),
        None => Ok(exactly(0)),
    }
}
