// Where a run of a kernel asked, and where it stopped.

ghost use Rattle.std.specs.Prelude.{◌≡◌, ◌≢◌, ◌-◌, ◌<◌, ◌^◌, List, map, pos, true, false, IfOk};
ghost use Rattle.rtio_types.specs.declared.outcome.Outcome.TheVariants.{Returned};
ghost use Rattle.core_session.specs.Sessions.{Answered};
ghost use Rattle.kernel_places.specs.Ends.{TellWhere};
ghost use Rattle.kernel_places.specs.OfSessions.{AreOfSession};
ghost use Rattle.sim_program.specs.Runs.{start_of};
ghost use Rattle.trace_program.specs.Places.{HasPlaces, beginning, main_line, text_place};

use core_image::Verified;
use kernel_places::{Place, RunPlaces, ends_are_told, line_at, places_of_session};
use rtio_types::Outcome;
use sim_program::{Run, start_of};
use std::alloc::{AllocError, Global};
use trace_report::TextPlace;

/// The places at which a run of the main function of accepted code asked its requests, and the one at which it stopped. That
/// one is told where the run didn't return, and the count of its instructions doesn't stand at its end. `lines` has the line
/// of each instruction.
pub fn places_of_main(
    alloc: Global,
    code: &Verified,
    budget: u32,
    run: &Run,
    lines: &[u32],
) -> Result<RunPlaces, AllocError>
    requires { (asked : List Answered)
        × AreOfSession code.now budget (start_of code.now.main) (pos 0) run.now.core.history asked run.now.steps }
    ensures { IfOk result (λ places. TellWhere code.now lines.now → (asked : List Answered) →
        AreOfSession code.now budget (start_of code.now.main) (pos 0) run.now.core.history asked run.now.steps →
        HasPlaces code.now lines.now (beginning code.now.main budget) asked run.now.outcome run.now.steps places.asked.items places.end) }
{
    ends_are_told();
    let main = code.code().main;
    let of = start_of(alloc, main as u32);
    let places = places_of_session(
        alloc,
        code,
        &of,
        0,
        budget,
        run.core.history(),
        lines,
        seeks_end(run),
    )?;
    Ok(places)
}

// Whether it is told where a run stopped.
fn seeks_end(run: &Run) -> bool
    ensures sought { run.now.outcome ≢ Returned → run.now.steps < 2 ^ 64 - 1 → result ≡ true }
    ensures returned { run.now.outcome ≡ Returned → result ≡ false }
    ensures stands { run.now.steps ≡ 2 ^ 64 - 1 → result ≡ false }
{
    !matches!(run.outcome, Outcome::Returned) && run.steps < u64::MAX
}

/// Where in the text instructions stand, by the line of each.
pub fn text_places(
    alloc: Global,
    lines: &[u32],
    places: &[Place],
) -> Result<Vec<TextPlace>, AllocError>
    ensures { IfOk result (λ all. all.items ≡ map (text_place lines.now) places.now) }
{
    let mut all = Vec::with_capacity(alloc, places.len())?;
    for place in places {
        all.push(text_place(lines, *place))?;
    }
    Ok(all)
}

/// Where in the text an instruction stands.
pub fn text_place(lines: &[u32], place: Place) -> TextPlace
    ensures { result ≡ text_place lines.now place }
{
    TextPlace {
        line: line_at(lines, place.at),
        main: main_line(lines, place),
    }
}

// The line of the call in `main` under which an instruction runs; none where `main` runs it itself.
fn main_line(lines: &[u32], place: Place) -> Option<u32>
    ensures { result ≡ main_line lines.now place }
{
    Some(line_at(lines, place.root?))
}
