// The trace of a run.

ghost use Rattle.std.specs.Prelude.{◌≡◌, IfOk};
ghost use Rattle.trace_report.specs.Trace.{trace_text};

use crate::closing::write_closing;
use crate::outputs::placed_outputs;
use crate::place::TextPlace;
use crate::requests::write_requests;
use rtio_core::Entry;
use rtio_types::Outcome;
use std::alloc::{AllocError, Global};
use trace_fates::TracedOutput;

// What a line takes in most traces.
const LINE: usize = 48;

// What the lines behind those of the requests and of the lost outputs take.
const CLOSING: usize = 256;

/// How a run ended.
#[derive(Clone, Copy, Debug, PartialEq, Eq)]
pub struct Ended {
    /// How its session ended.
    pub outcome: Outcome,
    /// Where it stopped; for an exception where that was raised first. None where no line tells it. It isn't written where the
    /// kernel returned.
    pub stop: Option<TextPlace>,
    /// The last cycle that the counter may reach.
    pub horizon: u64,
    /// The units that the session had.
    pub budget: u32,
}

/// The trace of a run. It has, each on a line of its own: for each answered request, in order, `PLACE READING WORD ..`, with
/// what the counter read at the answer (mu); `lost NUMBER PLACE STAMP CHANNEL` and why, for each output that didn't come out
/// under its own number; `least SLACK PLACE NUMBER`, the least slack of an output (mu) and the first output that has it;
/// `end ok`, or `end` with how the run ended and `line PLACE`; and `asked N out N lost N`, how many outputs were answered,
/// how many came out, and how many didn't. A place is `LINE`, or `LINE<MAIN` in a function that was called at line MAIN of
/// `main`.
///
/// The answered requests of the history stand at these places, and the outputs among them are these, both in order; a request
/// without a place has no line. The only error is want of memory.
pub fn trace(
    alloc: Global,
    history: &[Entry],
    places: &[TextPlace],
    outputs: &[TracedOutput],
    ended: Ended,
) -> Result<Vec<u8>, AllocError>
    ensures { IfOk result (λ bytes. bytes.items ≡ trace_text history.now places.now outputs.now ended) }
{
    let placed = placed_outputs(alloc, history, places, outputs)?;
    let lines = places.len().saturating_add(outputs.len());
    let mut text = String::with_capacity(
        alloc,
        lines.saturating_mul(LINE).saturating_add(CLOSING),
    )?;
    write_requests(&mut text, history, places, outputs)?;
    write_closing(&mut text, &placed, ended)?;
    Ok(text.into_bytes())
}
