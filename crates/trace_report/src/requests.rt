// The lines of the requests.

ghost use Rattle.std.specs.Prelude.{◌≡◌, ◌++◌, OnOk, option_map, string_bytes};
ghost use Rattle.trace_report.specs.Outputs.{answered};
ghost use Rattle.trace_report.specs.Requests.{asked_text, found_text, request_lines};
ghost use Rattle.trace_report.specs.Walk.{act_text, line_at};

use crate::passed::{Passed, passed_by};
use crate::place::{TextPlace, write_place};
use crate::words::{write_output, write_request};
use rtio_core::{Act, Entry};
use rtio_types::{Reply, Request};
use std::alloc::AllocError;
use trace_fates::{TracedOutput, reading};

/// Appends the line of each answered request of a history: they stand at these places, and the outputs among them are these.
pub fn write_requests(
    text: &mut String,
    history: &[Entry],
    places: &[TextPlace],
    outputs: &[TracedOutput],
) -> Result<(), AllocError>
    ensures { OnOk result (string_bytes text.new ≡ string_bytes text.old ++ request_lines outputs.now 0 (answered places.now history.now)) }
{
    let mut passed = Passed {
        asked: 0,
        outputs: 0,
    };
    for entry in history {
        write_entry(text, entry, places, outputs, passed)?;
        passed = passed_by(passed, entry);
    }
    Ok(())
}

// Appends the line of an entry, if it is an answered request and has a place.
fn write_entry(
    text: &mut String,
    entry: &Entry,
    places: &[TextPlace],
    outputs: &[TracedOutput],
    passed: Passed,
) -> Result<(), AllocError>
    ensures { OnOk result (string_bytes text.new ≡ string_bytes text.old ++ act_text places.now outputs.now passed entry.now.act) }
{
    match places.get(passed.asked) {
        None => Ok(()),
        Some(place) => write_act(text, *place, &entry.act, outputs.get(passed.outputs)),
    }
}

// Appends the line of an act, if it is an answered request; if that is an output, it is this one.
fn write_act(
    text: &mut String,
    place: TextPlace,
    act: &Act,
    output: Option<&TracedOutput>,
) -> Result<(), AllocError>
    ensures { OnOk result (string_bytes text.new ≡ string_bytes text.old ++ line_at place (option_map (λ output. output.now) output.entry) act.now) }
{
    match act {
        Act::Asked { request, reply, at } => {
            write_place(text, place)?;
            let reads = reading(*at);
            write!(text, " {reads}")?;
            write_asked(text, request, reply, output)?;
            text.push_str("\n")
        }
        _ => Ok(()),
    }
}

// Appends a request and what it was answered; if it is an output, this one.
fn write_asked(
    text: &mut String,
    request: &Request,
    reply: &Reply,
    output: Option<&TracedOutput>,
) -> Result<(), AllocError>
    ensures { OnOk result (string_bytes text.new ≡ string_bytes text.old ++ asked_text request.now reply.now (option_map (λ output. output.now) output.entry)) }
{
    match request {
        Request::Out(_) => write_found(text, output),
        _ => write_request(text, request, reply),
    }
}

// Appends an output that there is.
fn write_found(text: &mut String, output: Option<&TracedOutput>) -> Result<(), AllocError>
    ensures { OnOk result (string_bytes text.new ≡ string_bytes text.old ++ found_text (option_map (λ output. output.now) output.entry)) }
{
    match output {
        None => Ok(()),
        Some(output) => write_output(text, output),
    }
}
