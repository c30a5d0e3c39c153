// A recording that is played.

ghost use Rattle.std.specs.Prelude.{◌≡◌, ◌++◌, [], option_to_list, IfNone};

use rtio_types::{Event, Recording};
use std::marker::Model;

/// What is left of a recording that is played, which contracts see as such a recording.
#[derive(Debug, Drop)]
pub struct Playback {
    recording: Recording,
    played: usize,
}

impl Model for Playback {
    ghost use Rattle.std.specs.Prelude.{drop};
    ghost use Rattle.rtio_types.specs.Recordings.{Recorded};

    ghost Value = { Recorded };

    ghost view = { λ p. record { events = drop p.played p.recording.events; length = p.recording.length } };
}

impl Playback {
    /// The whole of a recording.
    pub fn of(recording: Recording) -> Playback
        ensures { result ≡ recording }
    {
        Playback {
            recording,
            played: 0,
        }
    }

    /// Takes the next output, if there is one.
    pub fn next(&mut self) -> Option<Event>
        ensures events { self.old.events ≡ option_to_list result ++ self.new.events }
        ensures none { IfNone result (self.old.events ≡ []) }
        ensures length { self.new.length ≡ self.old.length }
    {
        let event = self.recording.events.get(self.played).copied()?;
        self.played += 1;
        Some(event)
    }

    /// How far the recording moves the cursor, in mu.
    pub fn length(&self) -> i64
        ensures { result ≡ self.now.length }
    {
        self.recording.length
    }
}
