// The lines of the cores.

ghost use Rattle.std.specs.Prelude.{◌≡◌, ◌++◌, flat_map, pos, IfOk, OnOk, codes, string_bytes};
ghost use Rattle.rtio_core.specs.Entries.{last_cursor};
ghost use Rattle.rtio_types.specs.Time.{reading};
ghost use Rattle.sim_report.specs.Lines.{moment_line};
ghost use Rattle.lab_report.specs.Report.{core_heading, core_text, cores_from, out_text, pending_text, told_text};

use rtio_core::{Act, Core, Entry};
use rtio_types::reading;
use sim_report::{pending_events, write_events, write_log, write_moment};
use std::alloc::{AllocError, Global};

// What a line of an event takes in most reports.
const LINE: usize = 32;

// What the other lines of a core take.
const CLOSING: usize = 128;

/// The lines of each core, by pipeline.
pub fn lines_of_cores(alloc: Global, cores: &[Core]) -> Result<Vec<String>, AllocError>
    ensures { IfOk result (λ lines. flat_map string_bytes lines.items ≡ cores_from 0 cores.now) }
{
    let mut lines = Vec::with_capacity(alloc, cores.len())?;
    let mut pipeline = 0u64;
    for core in cores {
        lines.push(core_lines(alloc, pipeline, core)?)?;
        pipeline += 1;
    }
    Ok(lines)
}

/// The lines of the core of a pipeline, as the report has them. The only error is want of memory.
pub fn core_lines(alloc: Global, pipeline: u64, core: &Core) -> Result<String, AllocError>
    ensures { IfOk result (λ lines. string_bytes lines ≡ core_text pipeline core.now) }
{
    let lines = core.trace().len().saturating_add(core.log().len());
    let room = lines.saturating_mul(LINE).saturating_add(CLOSING);
    let mut text = String::with_capacity(alloc, room)?;
    write_core(alloc, &mut text, pipeline, core)?;
    Ok(text)
}

// Appends the lines of a core.
fn write_core(
    alloc: Global,
    text: &mut String,
    pipeline: u64,
    core: &Core,
) -> Result<(), AllocError>
    ensures { OnOk result (string_bytes text.new ≡ string_bytes text.old ++ core_text pipeline core.now) }
{
    write_heading(text, pipeline)?;
    write_out(text, core)?;
    write_pending(alloc, text, core)?;
    write_told(text, core)?;
    write_cursor(text, core)?;
    write_counter(text, core)
}

// Appends the line that names a core by its pipeline.
fn write_heading(text: &mut String, pipeline: u64) -> Result<(), AllocError>
    ensures { OnOk result (string_bytes text.new ≡ string_bytes text.old ++ core_heading pipeline) }
{
    writeln!(text, "core {pipeline}")
}

// Appends the lines of what was put out.
fn write_out(text: &mut String, core: &Core) -> Result<(), AllocError>
    ensures { OnOk result (string_bytes text.new ≡ string_bytes text.old ++ out_text core.now) }
{
    write_events(text, "out", core.trace())
}

// Appends the lines of what is still to be put out.
fn write_pending(alloc: Global, text: &mut String, core: &Core) -> Result<(), AllocError>
    ensures { OnOk result (string_bytes text.new ≡ string_bytes text.old ++ pending_text core.now) }
{
    let pending = pending_events(alloc, core)?;
    write_events(text, "pend", &pending)
}

// Appends the lines of the log.
fn write_told(text: &mut String, core: &Core) -> Result<(), AllocError>
    ensures { OnOk result (string_bytes text.new ≡ string_bytes text.old ++ told_text core.now) }
{
    write_log(text, core.log())
}

// Appends the line of the cursor of the last end.
fn write_cursor(text: &mut String, core: &Core) -> Result<(), AllocError>
    ensures { OnOk result (string_bytes text.new ≡ string_bytes text.old ++ moment_line (codes "cursor") (last_cursor core.now.history)) }
{
    write_moment(text, "cursor", last_cursor(core.history()))
}

// Appends the line of what the counter reads.
fn write_counter(text: &mut String, core: &Core) -> Result<(), AllocError>
    ensures { OnOk result (string_bytes text.new ≡ string_bytes text.old ++ moment_line (codes "counter") (pos (reading core.now.counter))) }
{
    // The counter is no further than the horizon.
    let _known = core.history();
    let reads = reading(core.counter());
    writeln!(text, "counter {reads}")
}

// The cursor of the last end (mu), 0 where no session ended. It stands near the end of the history.
fn last_cursor(history: &[Entry]) -> i64
    ensures { result ≡ last_cursor history.now }
{
    let mut left = history.len();
    while left > 0 {
        left -= 1;
        if let Act::End { cursor, .. } = &history[left].act {
            return *cursor;
        }
    }
    0
}
