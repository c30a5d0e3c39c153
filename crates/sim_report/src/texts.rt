// The report and the summary of a run.

ghost use Rattle.std.specs.Prelude.{◌≡◌, IfOk};
ghost use Rattle.sim_report.specs.Ends.{HasEnded};
ghost use Rattle.sim_report.specs.Report.{report_text, summary_text};

use crate::closing::write_closing;
use crate::datasets::write_datasets;
use crate::events::{write_count, write_events, write_log, write_log_counts};
use crate::pending::pending_events;
use rtio_core::Core;
use std::alloc::{AllocError, Global};

// What a line of an event takes in most reports.
const LINE: usize = 32;

// What the lines of a summary take, and those at the end of a report.
const CLOSING: usize = 512;

/// The report of a run, whose session is the last one of the history. It has, each on a line of its own and in this order:
/// `out STAMP CHANNEL ADDRESS DATA` for each event that was put out, by stamp and channel; the same with `pend` for each
/// accepted event that no reset cleared and whose cycle is above the counter, by number; `seq NUMBER STAMP CHANNEL` for
/// each event out of sequence, by number, `col` for each that collided and `busy` for each whose channel was busy, by cycle,
/// channel and number, and `rst` for each that a reset cleared, by number; `data NAME VALUE` for each dataset, in the order
/// of first setting, with its last value; `lanes` with the greatest number of events in each lane; `code LENGTH STEPS`;
/// `end ok`, `end raised NAME`, `end budget UNITS` or `end horizon CYCLES`; and `cursor T` and `counter T`. Numbers are
/// decimal, with a minus sign where they are negative, and times are in mu. `budget` is in units, `length` in bytes of the
/// image, and `steps` in instructions. The only error is want of memory.
pub fn report(
    alloc: Global,
    core: &Core,
    budget: u32,
    length: u64,
    steps: u64,
) -> Result<Vec<u8>, AllocError>
    requires { HasEnded core.now.history }
    ensures { IfOk result (λ bytes. bytes.items ≡ report_text core.now budget length steps) }
{
    let pending = pending_events(alloc, core)?;
    let lines = core
        .trace()
        .len()
        .saturating_add(pending.len())
        .saturating_add(core.log().len());
    let mut text = String::with_capacity(
        alloc,
        lines.saturating_mul(LINE).saturating_add(CLOSING),
    )?;
    write_events(&mut text, "out", core.trace())?;
    write_events(&mut text, "pend", &pending)?;
    write_log(&mut text, core.log())?;
    write_datasets(alloc, &mut text, core.history())?;
    write_closing(&mut text, core, budget, length, steps)?;
    Ok(text.into_bytes())
}

/// The summary of a run, whose session is the last one of the history: `outs N`, `seq N`, `col N`, `busy N` and `rst N`, the
/// numbers of such lines in the report, and then the report's lines from `lanes` on. The only error is want of memory.
pub fn summary(
    alloc: Global,
    core: &Core,
    budget: u32,
    length: u64,
    steps: u64,
) -> Result<Vec<u8>, AllocError>
    requires { HasEnded core.now.history }
    ensures { IfOk result (λ bytes. bytes.items ≡ summary_text core.now budget length steps) }
{
    let mut text = String::with_capacity(alloc, CLOSING)?;
    write_count(&mut text, "outs", core.trace().len())?;
    write_log_counts(&mut text, core.log())?;
    write_closing(&mut text, core, budget, length, steps)?;
    Ok(text.into_bytes())
}
