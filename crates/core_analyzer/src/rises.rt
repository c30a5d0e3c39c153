// Whether a dump has a waveform.

ghost use Rattle.std.specs.Prelude.{◌≡◌, ◌&&◌, IsTrue, nat_lt};
ghost use Rattle.limits.specs.Limits.{channels};
ghost use Rattle.core_analyzer.specs.Dumps.{is_dump, is_next};
ghost use Rattle.core_analyzer.specs.Rising.{are_behind_first_cycle, are_rising, is_behind_first_cycle};

use crate::dump::Dump;
use crate::faults::is_next;
use limits::CHANNELS;
use rtio_types::{Event, MU_PER_CYCLE};

/// Whether the events of a dump rise strictly by stamp (mu) and channel, from a stamp of at least 8 on, and are of channels of
/// the board: such a dump has a waveform. Of a dump that was read it tells whether each stamp is at least 8, as the stamps of
/// a core's dump are, since a core puts nothing out in its first cycle. The rule is this project's own.
pub fn rising(dump: &Dump) -> bool
    ensures rising { result ≡ are_rising dump.now.events }
    // Of what bytes can spell only the stamps are left to ask.
    ensures stamps { IsTrue (is_dump dump.now) → result ≡ are_behind_first_cycle dump.now.events }
{
    are_rising(&dump.events)
}

fn are_rising(events: &[Event]) -> bool
    ensures { result ≡ are_rising events.now }
{
    let mut before = None;
    for event in events {
        if !may_follow(before, *event) {
            return false;
        }
        before = Some(*event);
    }
    true
}

// Whether an event may stand behind another one.
fn may_follow(before: Option<Event>, event: Event) -> bool
    ensures { result ≡ (nat_lt event.channel channels && (is_next before event && is_behind_first_cycle event)) }
{
    (event.channel as usize) < CHANNELS
        && is_next(before, event)
        && MU_PER_CYCLE as i64 <= event.stamp
}
