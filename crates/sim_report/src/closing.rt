// The lines from `lanes` on, with which the report and the summary close.

ghost use Rattle.std.specs.Prelude.{◌≡◌, ◌++◌, ◌≤◌, ◌^◌, codes, pos, OnOk, string_bytes};
ghost use Rattle.rtio_types.specs.Time.{reading};
ghost use Rattle.sim_report.specs.Ends.{HasEnded, end_of};
ghost use Rattle.sim_report.specs.Lines.{code_line, end_line, end_lines, lanes_line, moment_line};
ghost use Rattle.sim_report.specs.Names.{exception_name};
ghost use Rattle.sim_report.specs.Report.{closing_text};

use crate::numbers::write_spaced;
use rtio_core::{Act, Core, Entry};
use rtio_types::{Exc, Outcome, reading};
use std::alloc::AllocError;

/// Appends the lines from `lanes` on.
pub fn write_closing(
    text: &mut String,
    core: &Core,
    budget: u32,
    length: u64,
    steps: u64,
) -> Result<(), AllocError>
    requires { HasEnded core.now.history }
    ensures { OnOk result (string_bytes text.new ≡ string_bytes text.old ++ closing_text core.now budget length steps) }
{
    write_lanes(text, core.peaks())?;
    write_code(text, length, steps)?;
    write_end(text, core, budget)?;
    write_counter(text, core)
}

// Appends the line of the lanes.
fn write_lanes(text: &mut String, peaks: &[u32]) -> Result<(), AllocError>
    ensures { OnOk result (string_bytes text.new ≡ string_bytes text.old ++ lanes_line peaks.now) }
{
    text.push_str("lanes")?;
    for peak in peaks {
        write_spaced(text, *peak)?;
    }
    text.push_str("\n")
}

// Appends the line of the code.
fn write_code(text: &mut String, length: u64, steps: u64) -> Result<(), AllocError>
    ensures { OnOk result (string_bytes text.new ≡ string_bytes text.old ++ code_line length steps) }
{
    writeln!(text, "code {length} {steps}")
}

// Appends the lines of the end with which the history ends.
fn write_end(text: &mut String, core: &Core, budget: u32) -> Result<(), AllocError>
    requires { HasEnded core.now.history }
    ensures { OnOk result (string_bytes text.new ≡ string_bytes text.old ++ end_lines core.now.config.horizon budget (end_of core.now.history)) }
{
    let Some(
        Entry {
            act: Act::End {
                outcome,
                cursor,
                ..
            },
            ..
        },
    ) = core.history().last()
    else {
        unreachable!()
    };
    write_outcome(text, core.horizon(), budget, *outcome)?;
    write_moment(text, "cursor", *cursor)
}

// Appends the line of the end.
fn write_outcome(
    text: &mut String,
    horizon: u64,
    budget: u32,
    outcome: Outcome,
) -> Result<(), AllocError>
    ensures { OnOk result (string_bytes text.new ≡ string_bytes text.old ++ end_line horizon budget outcome) }
{
    match outcome {
        Outcome::Returned => writeln!(text, "end ok"),
        Outcome::Raised(exception) => {
            let name = name_of_exception(exception);
            writeln!(text, "end raised {name}")
        }
        Outcome::Budget => writeln!(text, "end budget {budget}"),
        Outcome::Horizon => writeln!(text, "end horizon {horizon}"),
    }
}

// Appends the line of what the counter reads (mu).
fn write_counter(text: &mut String, core: &Core) -> Result<(), AllocError>
    ensures { OnOk result (string_bytes text.new ≡ string_bytes text.old ++ moment_line (codes "counter") (pos (reading core.now.counter))) }
{
    // The counter is no further than the horizon.
    let _known = core.history();
    let reads = reading(core.counter());
    writeln!(text, "counter {reads}")
}

/// Appends the line of a moment (mu), under its name. The only error is want of memory.
pub fn write_moment(text: &mut String, word: &str, moment: i64) -> Result<(), AllocError>
    ensures { OnOk result (string_bytes text.new ≡ string_bytes text.old ++ moment_line word.now moment) }
{
    writeln!(text, "{word} {moment}")
}

/// The name of an exception, as kernels spell it (ARTIQ manual).
pub fn name_of_exception(exception: Exc) -> &'static str
    ensures { result.now ≡ exception_name exception }
{
    match exception {
        Exc::RTIOUnderflow => "RTIOUnderflow",
        Exc::RTIOOverflow => "RTIOOverflow",
        Exc::DMAError => "DMAError",
        Exc::ZeroDivisionError => "ZeroDivisionError",
        Exc::IndexError => "IndexError",
        Exc::StackOverflow => "StackOverflow",
    }
}
