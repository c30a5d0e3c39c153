// The lines of the runs.

ghost use Rattle.std.specs.Prelude.{◌≡◌, ◌++◌, flat_map, OnOk, string_bytes};
ghost use Rattle.lab_report.specs.Runs.{run_line, status_text};

use exp_runs::{Run, Status};
use std::alloc::AllocError;

/// Appends the line of each run.
pub fn write_runs(text: &mut String, runs: &[Run]) -> Result<(), AllocError>
    ensures { OnOk result (string_bytes text.new ≡ string_bytes text.old ++ flat_map run_line runs.now) }
{
    for run in runs {
        write_run(text, run)?;
    }
    Ok(())
}

// Appends the line of a run.
fn write_run(text: &mut String, run: &Run) -> Result<(), AllocError>
    ensures { OnOk result (string_bytes text.new ≡ string_bytes text.old ++ run_line run.now) }
{
    let rid = run.rid;
    let status = status_text(run.status);
    writeln!(text, "run {rid} {status}")
}

// How a run ended.
fn status_text(status: Status) -> &'static str
    ensures { result.now ≡ status_text status }
{
    match status {
        Status::Done => "done",
        Status::Failed => "failed",
        Status::Terminated => "terminated",
        Status::Deleted => "deleted",
        _ => "",
    }
}
