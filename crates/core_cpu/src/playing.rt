// One output of a recording that is played.

ghost use Rattle.std.specs.Prelude.{◌≡◌, ◌+◌, ◌<◌, ◌^◌, None};
ghost use Rattle.rtio_types.specs.Time.{shifted};
ghost use Rattle.core_isa.specs.Steps.{play_events};
ghost use Rattle.core_cpu.specs.Courses.{TurnsTo};

use crate::course::Course;
use crate::phase::Purpose;
use crate::playback::Playback;
use crate::state::State;
use crate::step::{asks, onward};
use rtio_types::{Event, Request};
use word_arithmetic::moved_on;

// An output of a recording that is played from a cursor.
fn moved(event: Event, cursor: i64) -> Event
    ensures { result ≡ shifted event cursor }
{
    Event {
        stamp: moved_on(event.stamp, cursor),
        ..event
    }
}

/// Asks for the next output of a recording that is played. Behind the last one the cursor moves on by its length, and
/// the next instruction follows. Where no unit is left the run is over.
pub fn play_next(state: &mut State, left: Playback) -> Course
    requires closed { state.old.machine.recording ≡ None }
    requires place { state.old.machine.top.place + 1 < 2 ^ 32 }
    ensures { TurnsTo (play_events left.events left.length) state.old result state.new }
{
    let mut left = left;
    match left.next() {
        Some(event) => {
            let output = Request::Out(moved(event, state.cursor()));
            asks(state, Purpose::Played(left), output)
        }
        None => {
            let cursor = moved_on(state.cursor(), left.length());
            state.set_cursor(cursor);
            Course::Silent(onward(state))
        }
    }
}
