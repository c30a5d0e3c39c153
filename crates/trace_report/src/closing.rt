// The lines behind those of the requests.

ghost use Rattle.std.specs.Prelude.{◌≡◌, ◌++◌, filter, flat_map, length, OnOk, string_bytes};
ghost use Rattle.trace_report.specs.Lines.{counts_line, end_text, fate_text, lost_line, lost_text, stop_text};
ghost use Rattle.trace_report.specs.Trace.{came_out, closing_text, was_lost};

use crate::least::{least_of, write_least};
use crate::outputs::{Placed, is_out};
use crate::place::{TextPlace, write_place};
use crate::texts::Ended;
use rtio_types::Outcome;
use sim_report::name_of_exception;
use std::alloc::AllocError;
use trace_fates::Fate;

/// Appends the lines behind those of the requests.
pub fn write_closing(text: &mut String, outputs: &[Placed], ended: Ended) -> Result<(), AllocError>
    ensures { OnOk result (string_bytes text.new ≡ string_bytes text.old ++ closing_text outputs.now ended) }
{
    write_lost(text, outputs)?;
    write_least(text, least_of(outputs))?;
    write_end(text, ended)?;
    write_counts(text, outputs)
}

// Appends the line of each output that was lost.
fn write_lost(text: &mut String, outputs: &[Placed]) -> Result<(), AllocError>
    ensures { OnOk result (string_bytes text.new ≡ string_bytes text.old ++ flat_map lost_line outputs.now) }
{
    for output in outputs {
        write_if_lost(text, *output)?;
    }
    Ok(())
}

// Appends the line of an output, unless it came out.
fn write_if_lost(text: &mut String, placed: Placed) -> Result<(), AllocError>
    ensures { OnOk result (string_bytes text.new ≡ string_bytes text.old ++ lost_line placed) }
{
    if is_out(placed.output.fate) {
        return Ok(());
    }
    write_lost_output(text, placed)
}

// Appends the line of an output that was lost.
fn write_lost_output(text: &mut String, placed: Placed) -> Result<(), AllocError>
    ensures { OnOk result (string_bytes text.new ≡ string_bytes text.old ++ lost_text placed) }
{
    let Placed { place, output } = placed;
    let number = output.number;
    write!(text, "lost {number} ")?;
    write_place(text, place)?;
    let stamp = output.event.stamp;
    let channel = output.event.channel;
    write!(text, " {stamp} {channel}")?;
    write_why(text, output.fate)?;
    text.push_str("\n")
}

// Appends why an output didn't come out.
fn write_why(text: &mut String, fate: Fate) -> Result<(), AllocError>
    ensures { OnOk result (string_bytes text.new ≡ string_bytes text.old ++ fate_text fate) }
{
    match fate {
        Fate::CameOut => Ok(()),
        Fate::Late => text.push_str(" late"),
        Fate::Sequence => text.push_str(" seq"),
        Fate::Cleared => text.push_str(" rst"),
        Fate::Collided => text.push_str(" col"),
        Fate::Busy => text.push_str(" busy"),
        Fate::Overridden { by } => write!(text, " over {by}"),
        Fate::Pending => text.push_str(" pend"),
    }
}

// Appends the line of the end.
fn write_end(text: &mut String, ended: Ended) -> Result<(), AllocError>
    ensures { OnOk result (string_bytes text.new ≡ string_bytes text.old ++ end_text ended.horizon ended.budget ended.outcome ended.stop) }
{
    match ended.outcome {
        Outcome::Returned => text.push_str("end ok\n"),
        Outcome::Raised(exception) => {
            let name = name_of_exception(exception);
            write!(text, "end raised {name}")?;
            write_stop(text, ended.stop)
        }
        Outcome::Budget => {
            let budget = ended.budget;
            write!(text, "end budget {budget}")?;
            write_stop(text, ended.stop)
        }
        Outcome::Horizon => {
            let horizon = ended.horizon;
            write!(text, "end horizon {horizon}")?;
            write_stop(text, ended.stop)
        }
    }
}

// Appends where the run stopped, if that is told.
fn write_stop(text: &mut String, stop: Option<TextPlace>) -> Result<(), AllocError>
    ensures { OnOk result (string_bytes text.new ≡ string_bytes text.old ++ stop_text stop) }
{
    match stop {
        None => text.push_str("\n"),
        Some(stop) => {
            text.push_str(" line ")?;
            write_place(text, stop)?;
            text.push_str("\n")
        }
    }
}

// Appends how many outputs were answered, how many of them came out, and how many didn't.
fn write_counts(text: &mut String, outputs: &[Placed]) -> Result<(), AllocError>
    ensures { OnOk result (string_bytes text.new ≡ string_bytes text.old ++ counts_line (length outputs.now) (length (filter came_out outputs.now)) (length (filter was_lost outputs.now))) }
{
    let asked = outputs.len();
    let (out, lost) = out_and_lost(outputs);
    writeln!(text, "asked {asked} out {out} lost {lost}")
}

// How many outputs came out, and how many didn't.
#[tactic(auto, using(crate::proofs::Counts::both_counted))]
fn out_and_lost(outputs: &[Placed]) -> (usize, usize)
    ensures out { result.0 ≡ length (filter came_out outputs.now) }
    ensures lost { result.1 ≡ length (filter was_lost outputs.now) }
{
    let out = count_out(outputs);
    (out, outputs.len() - out)
}

// How many outputs came out.
fn count_out(outputs: &[Placed]) -> usize
    ensures { result ≡ length (filter came_out outputs.now) }
{
    let mut count = 0;
    for placed in outputs {
        if is_out(placed.output.fate) {
            count += 1;
        }
    }
    count
}
