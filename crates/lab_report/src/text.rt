// The report of a laboratory.

ghost use Rattle.std.specs.Prelude.{◌≡◌, ◌++◌, List, flat_map, IfOk, OnOk, string_bytes};
ghost use Rattle.rtio_core.specs.Core.{CoreState};
ghost use Rattle.lab_report.specs.Report.{cores_from, lab_text};

use crate::cores::lines_of_cores;
use crate::datasets::write_datasets;
use crate::runs::write_runs;
use crate::steps::write_steps;
use rtio_core::Core;
use sched_core::{Payload, Sched};
use std::alloc::{AllocError, Global};

// What the line of a step takes.
const LINE: usize = 32;

/// The report of a laboratory: its scheduler, and its cores by pipeline. It has, each on a line of its own and in this order:
/// `step CLOCK RID POS WORD` for each step that was reported, in the order of the scheduler's history, with the lab clock after
/// it; `run RID STATUS` for each run, by number, with `done`, `failed`, `terminated` or `deleted`; `data NAME FLAGS VALUE` for
/// each dataset, in the order of first setting, where FLAGS has `b` where it is broadcast, `p` where it persists and `a` where it
/// is archived, and else a dash; for each core `core PIPELINE`, the lines `out`, `pend`, `seq`, `col`, `busy` and `rst` of a
/// kernel's report, `cursor T`, which is that of the last end and 0 where no session ended, and `counter T`; and last `end`.
/// Times are in mu. A run that hasn't ended has no word for its status. The only error is want of memory.
pub fn report<P: Payload>(
    alloc: Global,
    sched: &Sched<P>,
    cores: &[Core],
) -> Result<Vec<u8>, AllocError>
    ensures { IfOk result (λ bytes. bytes.items ≡ lab_text sched.now cores.now) }
{
    let lines = lines_of_cores(alloc, cores)?;
    report_of_lines(alloc, sched, &lines)
}

/// The same report, of a scheduler and of the lines of each core, by pipeline (`core_lines`).
pub fn report_of_lines<P: Payload>(
    alloc: Global,
    sched: &Sched<P>,
    lines: &[String],
) -> Result<Vec<u8>, AllocError>
    ensures { IfOk result (λ bytes. (cores : List CoreState) → flat_map string_bytes lines.now ≡ cores_from 0 cores
        → bytes.items ≡ lab_text sched.now cores) }
{
    let steps = sched.history().len().saturating_mul(LINE);
    let mut text = String::with_capacity(alloc, bytes_of(lines).saturating_add(steps))?;
    write_steps(&mut text, sched.history())?;
    write_runs(&mut text, sched.runs().items())?;
    write_datasets(&mut text, sched.datasets())?;
    write_all(&mut text, lines)?;
    text.push_str("end\n")?;
    Ok(text.into_bytes())
}

// Appends these texts, one behind the other.
fn write_all(text: &mut String, parts: &[String]) -> Result<(), AllocError>
    ensures { OnOk result (string_bytes text.new ≡ string_bytes text.old ++ flat_map string_bytes parts.now) }
{
    for part in parts {
        text.push_str(part.as_str())?;
    }
    Ok(())
}

// How many bytes they have.
fn bytes_of(parts: &[String]) -> usize {
    let mut bytes: usize = 0;
    for part in parts {
        bytes = bytes.saturating_add(part.len());
    }
    bytes
}
