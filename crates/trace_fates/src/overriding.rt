// The outputs that later ones override.

ghost use Rattle.std.specs.Prelude.{◌≡◌, ℕ, ℤ, if◌then◌else◌, OnOk, Some};
ghost use Rattle.rtio_types.specs.Board.{replaces};
ghost use Rattle.trace_fates.specs.Passes.{is_there, known, may_override, over_fate, place_of, with_over};

use crate::{Fate, TracedOutput};
use rtio_types::{ChannelKind, Event, kind_of};
use std::alloc::{AllocError, Global};
use std::collections::HashMap;

// The numbers of outputs by channel and stamp (mu).
type Later = HashMap<(u8, i64), u64>;

/// Tells of each output that would come out whether a later one overrides it. It goes through them from the last, and
/// keeps for each channel and stamp the number of the last one that it met. The only error is want of memory.
pub fn tell_overridden(alloc: Global, outputs: &mut [TracedOutput]) -> Result<(), AllocError>
    ensures { OnOk result (outputs.new ≡ with_over outputs.old) }
{
    let mut later: Later = HashMap::new(alloc);
    for i in (0..outputs.len()).rev() {
        let output = outputs[i];
        let by = known(&later, output.event);
        outputs[i] = TracedOutput {
            fate: over_fate(output, by),
            ..output
        };
        if may_override(output.fate) {
            keep(&mut later, output.event, output.number)?;
        }
    }
    Ok(())
}

// The number that is kept for the channel and stamp of an event.
fn known(later: &Later, event: Event) -> Option<u64>
    ensures { result ≡ known later.now (place_of event) }
{
    later.get(&(event.channel, event.stamp)).copied()
}

// Keeps a number for the channel and stamp of an event.
fn keep(later: &mut Later, event: Event, number: u64) -> Result<(), AllocError>
    ensures { OnOk result ((place : ℕ × ℤ) →
        known later.new place ≡ (if is_there (place_of event) place then Some number else known later.old place)) }
{
    later.insert((event.channel, event.stamp), number)?;
    Ok(())
}

// The fate of an output whose channel and stamp a later one has.
fn over_fate(output: TracedOutput, by: Option<u64>) -> Fate
    ensures { result ≡ over_fate output by }
{
    match (output.fate, by) {
        (Fate::CameOut | Fate::Pending, Some(by)) if replaces(output.event.channel) => {
            Fate::Overridden { by }
        }
        _ => output.fate,
    }
}

// Whether an output of this fate may override one.
fn may_override(fate: Fate) -> bool
    ensures { result ≡ may_override fate }
{
    !matches!(fate, Fate::Late | Fate::Sequence)
}

// Whether an output on a channel replaces an earlier one of the same stamp.
fn replaces(channel: u8) -> bool
    ensures { result ≡ replaces channel }
{
    kind_of(channel) != Some(ChannelKind::OutRaw)
}
