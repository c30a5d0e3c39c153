// The recordings that a slack run saved.

use rtio_types::Name;
use slack_meaning::{Span, SpanEvent};
use std::alloc::AllocError;
use std::marker::Model;

/// A recording whose stamps and length may be spans. Contracts see it as a list and a span.
#[derive(Debug, Drop)]
pub struct SpanRecording {
    /// Its outputs, with stamps from its start in machine units (mu).
    pub events: Vec<SpanEvent>,
    /// How far its playback moves the cursor, in mu.
    pub length: Span,
}

impl Model for SpanRecording {
    ghost use Rattle.slack_meaning.specs.Actions.{SpanRecording as Kept};

    ghost Value = { Kept };

    ghost view = { λ r. record { events = r.events.items; length = r.length } };
}

/// A name that was saved, with its last recording if it wasn't erased since. Contracts see it as a pair.
#[derive(Debug, Drop)]
pub struct Saved {
    name: Name,
    recording: Option<SpanRecording>,
}

impl Model for Saved {
    ghost use Rattle.std.specs.Prelude.{List, ℕ, Option};
    ghost use Rattle.slack_meaning.specs.Actions.{SpanRecording as Kept};

    ghost Value = { List ℕ × Option Kept };

    ghost view = { λ s. (s.name, s.recording) };
}

impl Saved {
    ghost use Rattle.std.specs.Prelude.{◌≡◌, bytes_eq, option_map};

    // Whether this is its name.
    fn is_named(&self, name: &Name) -> bool
        ensures { result ≡ bytes_eq name.now self.now.0 }
    {
        name.bytes() == self.name.bytes()
    }

    // Its recording, if it wasn't erased.
    fn recording(&self) -> Option<&SpanRecording>
        ensures { option_map (λ r. r.now) result ≡ self.now.1 }
    {
        self.recording.as_ref()
    }

    // Has this recording from now on, or none.
    fn replace(&mut self, recording: Option<SpanRecording>)
        ensures { self.new ≡ (self.old.0, recording) }
    {
        self.recording = recording;
    }
}

ghost use Rattle.std.specs.Prelude.{◌≡◌, IfOk, Some, option_map};
ghost use Rattle.slack_meaning.specs.Answers.{at_hand, is_known, with_recording};

/// Whether a name was saved.
pub fn is_known(saved: &[Saved], name: &Name) -> bool
    ensures { result ≡ is_known saved.now name.now }
{
    for entry in saved.iter() {
        if entry.is_named(name) {
            return true;
        }
    }
    false
}

// How many names a run may save.
const MOST_NAMES: usize = 1_000;

/// Whether 1,000 names were saved, and this isn't one of them.
pub fn is_full_for(saved: &[Saved], name: &Name) -> bool
    ensures { result ≡ (nat_le 1000 (length saved.now) && not (is_known saved.now name.now)) }
{
    MOST_NAMES <= saved.len() && !is_known(saved, name)
}

ghost use Rattle.std.specs.Prelude.{length, nat_le, not, ◌&&◌};

/// The recording of a name, if it was saved and not erased since.
pub fn at_hand<'b>(saved: &'b [Saved], name: &Name) -> Option<&'b SpanRecording>
    ensures { option_map (λ r. r.now) result ≡ at_hand saved.now name.now }
{
    for entry in saved.iter() {
        if entry.is_named(name) {
            return entry.recording();
        }
    }
    None
}

// The place of a name among some, if it was saved.
fn place_of(saved: &[Saved], name: &Name) -> Option<usize>
    ensures { IsPlaceOf name.now saved.now result }
{
    for i in 0..saved.len() {
        if saved[i].is_named(name) {
            return Some(i);
        }
    }
    None
}

ghost use Rattle.std.specs.Prelude.{IsSome, None};
ghost use Rattle.slack_state.specs.Places.{IsPlaceOf};

/// Erases the recording of a name that is at hand. The name keeps its place.
pub fn forget(saved: &mut [Saved], name: &Name)
    requires { IsSome (at_hand saved.old name.now) }
    ensures { saved.new ≡ with_recording saved.old name.now None }
{
    match place_of(saved, name) {
        Some(place) => saved[place].replace(None),
        None => unreachable!(),
    }
}

/// Lets a name have this recording: in its place, or at the end where it wasn't saved before. The only error is want of
/// memory.
pub fn remember(
    saved: &mut Vec<Saved>,
    name: Name,
    recording: SpanRecording,
) -> Result<(), AllocError>
    ensures { IfOk result (λ _. saved.new.items ≡ with_recording saved.old.items name (Some recording)) }
{
    match place_of(saved.as_slice(), &name) {
        Some(place) => saved[place].replace(Some(recording)),
        None => saved.push(Saved {
            name,
            recording: Some(recording),
        })?,
    }
    Ok(())
}
