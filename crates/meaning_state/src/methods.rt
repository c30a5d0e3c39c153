// The methods of the language.

ghost use Rattle.std.specs.Prelude.{◌≡◌, [], IsSome, true, unwrap_or};
ghost use Rattle.meaning_state.specs.Does.{Does};
ghost use Rattle.meaning_state.specs.Texts.{operation_takes_text};
ghost use Rattle.timeline_sem.specs.Timeline.{first_of_list, second_of_list, perform};

use crate::early::Early;
use crate::state::State;
use kern_calls::Operation;
use meaning_numbers::low_byte;
use rtio_types::{Name, Request};

/// The first of a call's numbers, 0 where there is none.
pub fn first_number(numbers: &[i64]) -> i64
    ensures { result ≡ first_of_list numbers.now }
{
    match numbers {
        [] => 0,
        [first, ..] => *first,
    }
}

// The second of a call's numbers, 0 where there is none.
fn second_number(numbers: &[i64]) -> i64
    ensures { result ≡ second_of_list numbers.now }
{
    match numbers {
        [] => 0,
        [_, rest @ ..] => first_number(rest),
    }
}

/// What a method does with its numbers and its text. It gives 0 where it has no value.
pub fn perform(
    state: &mut State<'_>,
    operation: Operation,
    numbers: &[i64],
    text: Option<Name>,
) -> Result<i64, Early>
    requires { operation_takes_text operation ≡ true → IsSome text }
    ensures { Does result state.new (perform operation numbers.now (unwrap_or text []) state.old) }
{
    let first = first_number(numbers);
    match operation {
        Operation::GateRising(channel) => state.gate(channel, 1, first),
        Operation::GateFalling(channel) => state.gate(channel, 2, first),
        Operation::GateBoth(channel) => state.gate(channel, 3, first),
        Operation::Timestamp(channel) => state.inquire(Request::Edge {
            channel,
            up_to: first,
        }),
        Operation::Count(channel) => state.count(channel, first),
        Operation::Counter => state.inquire(Request::Counter),
        Operation::GetHandle => match text {
            Some(name) => state.inquire(Request::Handle { name }),
            None => unreachable!(),
        },
        _ => {
            act(state, operation, numbers, text)?;
            Ok(0)
        }
    }
}

// What a method without a value does.
fn act(
    state: &mut State<'_>,
    operation: Operation,
    numbers: &[i64],
    text: Option<Name>,
) -> Result<(), Early>
    requires told { operation_takes_text operation ≡ true → IsSome text }
    requires valueless { has_value operation ≡ false }
    ensures { Does result state.new (act operation numbers.now (unwrap_or text []) state.old) }
{
    let first = first_number(numbers);
    match operation {
        Operation::On(channel) => state.output(channel, 0, 1),
        Operation::Off(channel) => state.output(channel, 0, 0),
        Operation::Pulse(channel) => state.pulse(channel, first),
        Operation::Write(channel) => {
            state.output(channel, low_byte(first), second_number(numbers))
        }
        Operation::BreakRealtime => state.move_to_real_time(),
        Operation::Reset => state.reset_core(),
        Operation::WaitUntil => state.tell(Request::Wait { until: first }),
        Operation::PlaybackHandle => state.play(Request::FetchHandle { handle: first }),
        Operation::Playback => match text {
            Some(name) => state.play(Request::Fetch { name }),
            None => unreachable!(),
        },
        Operation::Erase => match text {
            Some(name) => state.tell(Request::Erase { name }),
            None => unreachable!(),
        },
        _ => unreachable!(),
    }
}

ghost use Rattle.std.specs.Prelude.{false};
ghost use Rattle.meaning_state.specs.Texts.{act, has_value};
