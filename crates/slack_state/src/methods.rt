// The methods of the language.

ghost use Rattle.std.specs.Prelude.{◌≡◌, [], IsSome, false, true, unwrap_or};
ghost use Rattle.slack_meaning.specs.Timeline.{first_of_list, second_of_list, perform};
ghost use Rattle.slack_state.specs.Does.{Does};
ghost use Rattle.meaning_state.specs.Texts.{has_value, operation_takes_text};
ghost use Rattle.slack_state.specs.Texts.{act};

use crate::early::{Early, Reason};
use crate::spans::exactly;
use crate::state::State;
use kern_calls::Operation;
use rtio_types::Name;
use slack_meaning::{OpenKind, Span};

/// The first of a call's values, 0 where there is none.
pub fn first_span(spans: &[Span]) -> Span
    ensures { result ≡ first_of_list spans.now }
{
    match spans {
        [] => exactly(0),
        [first, ..] => *first,
    }
}

// The second of a call's values, 0 where there is none.
fn second_span(spans: &[Span]) -> Span
    ensures { result ≡ second_of_list spans.now }
{
    match spans {
        [] => exactly(0),
        [_, rest @ ..] => first_span(rest),
    }
}

impl State {
    ghost use Rattle.slack_state.specs.Does.{DoesAlways};
    ghost use Rattle.slack_state.specs.Texts.{forget};

    // Erases the recording of a name.
    fn forget(&mut self, name: &Name) -> Result<(), Reason>
        ensures { DoesAlways result self.new (forget name.now self.old) }
    {
        self.take_unit()?;
        self.erase(name)
    }
}

/// What a method does with its values and its text. It gives 0 where it has no value.
pub fn perform(
    state: &mut State,
    operation: Operation,
    spans: &[Span],
    text: Option<Name>,
) -> Result<Span, Early>
    requires { operation_takes_text operation ≡ true → IsSome text }
    ensures { Does result state.new (perform operation spans.now (unwrap_or text []) state.old) }
{
    let first = first_span(spans);
    match operation {
        Operation::GateRising(channel) => state.gate(channel, 1, first),
        Operation::GateFalling(channel) => state.gate(channel, 2, first),
        Operation::GateBoth(channel) => state.gate(channel, 3, first),
        Operation::Timestamp(_) => Ok(state.ask_edge(first)?),
        Operation::Count(_) => Ok(state.ask_edge(first)?),
        Operation::Counter => Ok(state.ask_unknown(OpenKind::Reading)?),
        Operation::GetHandle => Ok(state.ask_unknown(OpenKind::Handle)?),
        _ => {
            act(state, operation, spans, text)?;
            Ok(exactly(0))
        }
    }
}

// What a method without a value does.
fn act(
    state: &mut State,
    operation: Operation,
    spans: &[Span],
    text: Option<Name>,
) -> Result<(), Early>
    requires told { operation_takes_text operation ≡ true → IsSome text }
    requires valueless { has_value operation ≡ false }
    ensures { Does result state.new (act operation spans.now (unwrap_or text []) state.old) }
{
    let first = first_span(spans);
    match operation {
        Operation::On(channel) => state.output(channel, 0, 1),
        Operation::Off(channel) => state.output(channel, 0, 0),
        Operation::Pulse(channel) => state.pulse(channel, first),
        Operation::Write(channel) => state.write_raw(channel, first, second_span(spans)),
        Operation::BreakRealtime => Ok(state.move_to_real_time()?),
        Operation::Reset => Ok(state.reset_core()?),
        Operation::WaitUntil => Ok(state.wait_until(first)?),
        Operation::PlaybackHandle => Ok(state.play_handle(first)?),
        Operation::Playback => match text {
            Some(name) => Ok(state.play(&name)?),
            None => unreachable!(),
        },
        Operation::Erase => match text {
            Some(name) => Ok(state.forget(&name)?),
            None => unreachable!(),
        },
        _ => unreachable!(),
    }
}
