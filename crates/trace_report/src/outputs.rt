// The outputs of a run, each with its place.

ghost use Rattle.std.specs.Prelude.{◌≡◌, ◌++◌, IfOk, OnOk};
ghost use Rattle.std.specs.Option.{option_to_list};
ghost use Rattle.trace_fates.specs.Fates.{is_out};
ghost use Rattle.trace_report.specs.Outputs.{is_missing, is_output, misses, placed};
ghost use Rattle.trace_report.specs.Walk.{next_placed};

use crate::passed::{Passed, passed_by};
use crate::place::TextPlace;
use rtio_core::{Act, Entry};
use rtio_types::Request;
use std::alloc::{AllocError, Global};
use trace_fates::{Fate, TracedOutput};

/// An output, and where it was asked.
#[derive(Clone, Copy, Debug, PartialEq, Eq)]
pub struct Placed {
    /// Where.
    pub place: TextPlace,
    /// The output.
    pub output: TracedOutput,
}

/// The outputs of a history, each with the place of its request.
pub fn placed_outputs(
    alloc: Global,
    history: &[Entry],
    places: &[TextPlace],
    outputs: &[TracedOutput],
) -> Result<Vec<Placed>, AllocError>
    ensures { IfOk result (λ all. all.items ≡ placed places.now outputs.now history.now) }
{
    let mut all = Vec::with_capacity(alloc, outputs.len())?;
    let mut passed = Passed {
        asked: 0,
        outputs: 0,
    };
    for entry in history {
        push_next(&mut all, next_placed(entry, places, outputs, passed))?;
        passed = passed_by(passed, entry);
    }
    Ok(all)
}

// Pushes an output, if there is one.
fn push_next(all: &mut Vec<Placed>, next: Option<Placed>) -> Result<(), AllocError>
    ensures { OnOk result (all.new.items ≡ all.old.items ++ option_to_list next) }
{
    if let Some(next) = next {
        all.push(next)?;
    }
    Ok(())
}

// The output that an entry is, where it is one and has a place.
fn next_placed(
    entry: &Entry,
    places: &[TextPlace],
    outputs: &[TracedOutput],
    passed: Passed,
) -> Option<Placed>
    ensures { result ≡ next_placed places.now outputs.now passed entry.now.act }
{
    if !is_output(entry) {
        return None;
    }
    let place = *places.get(passed.asked)?;
    let output = *outputs.get(passed.outputs)?;
    Some(Placed { place, output })
}

// Whether an entry is an output that was answered.
fn is_output(entry: &Entry) -> bool
    ensures { result ≡ is_output entry.now.act }
{
    matches!(
        &entry.act,
        Act::Asked {
            request: Request::Out(_),
            ..
        }
    )
}

/// Whether an output came out.
pub fn is_out(fate: Fate) -> bool
    ensures { result ≡ is_out fate }
{
    matches!(fate, Fate::CameOut)
}

/// Whether an output is missing that neither was overridden nor came too late. The first is meant, and a kernel learns the
/// second.
pub fn misses(outputs: &[TracedOutput]) -> bool
    ensures { result ≡ misses outputs.now }
{
    outputs.iter().any(|output| is_missing(output.fate))
}

fn is_missing(fate: Fate) -> bool
    ensures { result ≡ is_missing fate }
{
    match fate {
        Fate::CameOut | Fate::Late | Fate::Overridden { .. } => false,
        Fate::Sequence | Fate::Cleared | Fate::Collided | Fate::Busy | Fate::Pending => true,
    }
}
