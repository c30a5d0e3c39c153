// What a CPU does next.

use crate::playback::Playback;
use rtio_types::Outcome;

/// What the reply to a request is for.
#[derive(Debug, Drop)]
pub enum Purpose {
    /// Its number goes on the operands.
    Number,
    /// Nothing, unless it raises.
    Nothing,
    /// The recording that it brings is played.
    Fetched,
    /// The playback goes on.
    Played(Playback),
}

/// What a CPU does next.
#[derive(Debug, Drop)]
pub enum Phase {
    /// The instruction at its place.
    Ready,
    /// It puts out what is left of a recording.
    Playing(Playback),
    /// It waits for the reply to a request.
    Asking(Purpose),
    /// Nothing more.
    Over(Outcome),
}
