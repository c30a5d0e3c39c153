// The lines of events: those that were put out, those that are still to be, and those in the log.

ghost use Rattle.std.specs.Prelude.{◌≡◌, ◌++◌, codes, flat_map, length, OnOk, string_bytes};
ghost use Rattle.output_merge.specs.Outputs.{LogLists};
ghost use Rattle.rtio_core.specs.Told.{TellsLog};
ghost use Rattle.rtio_log.specs.Kinds.{lines_of};
ghost use Rattle.sim_report.specs.Lines.{count_line, event_fields, event_line, log_line};
ghost use Rattle.sim_report.specs.Report.{log_counts, log_text};

use crate::numbers::{write_small, write_spaced};
use rtio_log::{LogKind, LogLine, is_kind};
use rtio_types::Event;
use std::alloc::AllocError;

/// Appends a line for each of these events: the word, and then stamp (mu), channel, address and value. The only error is want of
/// memory.
pub fn write_events(text: &mut String, word: &str, events: &[Event]) -> Result<(), AllocError>
    ensures { OnOk result (string_bytes text.new ≡ string_bytes text.old ++ flat_map (event_line word.now) events.now) }
{
    for event in events {
        write_event(text, word, *event)?;
    }
    Ok(())
}

// Appends the line of an event.
fn write_event(text: &mut String, word: &str, event: Event) -> Result<(), AllocError>
    ensures { OnOk result (string_bytes text.new ≡ string_bytes text.old ++ event_line word.now event) }
{
    text.push_str(word)?;
    write_fields(text, event)
}

// Appends what the line of an event says of it.
fn write_fields(text: &mut String, event: Event) -> Result<(), AllocError>
    ensures { OnOk result (string_bytes text.new ≡ string_bytes text.old ++ event_fields event) }
{
    write_spaced(text, event.stamp)?;
    write_small(text, event.channel as u32)?;
    write_small(text, event.address as u32)?;
    write_small(text, event.value)?;
    text.push_str("\n")
}

/// Appends the lines of a log: `seq`, `col`, `busy` and `rst`, kind by kind. The only error is want of memory.
pub fn write_log(text: &mut String, log: &[LogLine]) -> Result<(), AllocError>
    ensures { OnOk result ((lists : LogLists) → TellsLog lists log.now → string_bytes text.new ≡ string_bytes text.old ++ log_text lists) }
{
    write_kind(text, "seq", log, LogKind::Sequence)?;
    write_kind(text, "col", log, LogKind::Collision)?;
    write_kind(text, "busy", log, LogKind::Busy)?;
    write_kind(text, "rst", log, LogKind::Cleared)
}

// Appends the lines of a kind of the log.
fn write_kind(
    text: &mut String,
    word: &str,
    log: &[LogLine],
    kind: LogKind,
) -> Result<(), AllocError>
    ensures { OnOk result (string_bytes text.new ≡ string_bytes text.old ++ flat_map (log_line word.now) (lines_of kind log.now)) }
{
    for line in log {
        if is_kind(kind, line.kind) {
            write_line(text, word, *line)?;
        }
    }
    Ok(())
}

// Appends the line of an event that was not put out.
fn write_line(text: &mut String, word: &str, line: LogLine) -> Result<(), AllocError>
    ensures { OnOk result (string_bytes text.new ≡ string_bytes text.old ++ log_line word.now (line.number, line.event)) }
{
    text.push_str(word)?;
    write_spaced(text, line.number)?;
    write_spaced(text, line.event.stamp)?;
    write_spaced(text, line.event.channel)?;
    text.push_str("\n")
}

/// Appends how many lines of each kind the log has.
pub fn write_log_counts(text: &mut String, log: &[LogLine]) -> Result<(), AllocError>
    ensures { OnOk result ((lists : LogLists) → TellsLog lists log.now → string_bytes text.new ≡ string_bytes text.old ++ log_counts lists) }
{
    write_count(text, "seq", count_of(log, LogKind::Sequence))?;
    write_count(text, "col", count_of(log, LogKind::Collision))?;
    write_count(text, "busy", count_of(log, LogKind::Busy))?;
    write_count(text, "rst", count_of(log, LogKind::Cleared))
}

// How many lines of a kind the log has.
fn count_of(log: &[LogLine], kind: LogKind) -> usize
    ensures { result ≡ length (lines_of kind log.now) }
{
    let mut count = 0;
    for line in log {
        if is_kind(kind, line.kind) {
            count += 1;
        }
    }
    count
}

/// Appends the line of a number of events.
pub fn write_count(text: &mut String, word: &str, count: usize) -> Result<(), AllocError>
    ensures { OnOk result (string_bytes text.new ≡ string_bytes text.old ++ count_line word.now count) }
{
    text.push_str(word)?;
    write_spaced(text, count)?;
    text.push_str("\n")
}
