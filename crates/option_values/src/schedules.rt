// Schedules in words.

ghost use Rattle.std.specs.Prelude.{◌≡◌};
ghost use Rattle.option_values.specs.Schedules.{schedule_by, schedule_of};

use crate::numbers::read_number;
use limits::MOST_NUMBER;
use run_schedule::Schedule;

/// The schedule that `lockstep`, `letters:` with a word, or `mix:` with a number says.
pub fn read_schedule(text: &str) -> Option<Schedule>
    ensures { result ≡ schedule_of text.now }
{
    if text == "lockstep" {
        return Some(Schedule::lockstep());
    }
    let (kind, rest) = text.split_once(':')?;
    schedule_by(kind, rest)
}

// The schedule of a kind and what says more.
fn schedule_by(kind: &str, text: &str) -> Option<Schedule>
    ensures { result ≡ schedule_by kind.now text.now }
{
    match kind {
        "letters" => Schedule::letters(text.as_bytes()),
        "mix" => Some(Schedule::mix(read_number(text, 0, MOST_NUMBER)?)),
        _ => None,
    }
}
