// The text of a run.
ghost use Rattle.std.specs.Prelude.{◌≡◌, ◌+◌, ◌≤◌, ◌++◌, length, IfOk};
ghost use Rattle.limits.specs.Limits.{most_budget};
ghost use Rattle.core_analyzer.specs.CoreDumps.{dump_of};
ghost use Rattle.core_analyzer.specs.Dumps.{dump_bytes};
ghost use Rattle.sim_report.specs.Ends.{HasEnded};
ghost use Rattle.sim_report.specs.Recordings.{dma_text};
ghost use Rattle.sim_report.specs.Report.{report_text};
ghost use Rattle.sim_program.specs.Reports.{told_text};

use crate::run::Run;
use core_analyzer::write_dump;
use rtio_headline::no_more_is_told_than_was_asked;
use sim_report::{dma_lines, report, summary};
use std::alloc::{AllocError, Global};

/// In which form a run is told.
#[derive(Clone, Copy, Debug, PartialEq, Eq)]
pub enum Form {
    /// All lines, and behind them those of the kept recordings where they are asked for.
    Report { dma: bool },
    /// The numbers of the lines of events, and the lines behind them.
    Summary,
    /// What the core did, as bytes.
    Bytes,
}

/// The text of a run with so many units, of code whose image has so many bytes. It fails only for want of memory. A run has at
/// most 1,000,000 requests, its start and its end.
pub fn text_of(
    alloc: Global,
    form: Form,
    run: &Run,
    budget: u32,
    size: u64,
) -> Result<Vec<u8>, AllocError>
    requires ended { HasEnded run.now.core.history }
    requires few { length run.now.core.history ≤ most_budget + 2 }
    ensures { IfOk result (λ bytes. bytes.items ≡ told_text form run.now.core budget size run.now.steps) }
{
    match form {
        Form::Report { dma: false } => report(alloc, &run.core, budget, size, run.steps),
        Form::Report { dma: true } => report_with_recordings(alloc, run, budget, size),
        Form::Summary => summary(alloc, &run.core, budget, size, run.steps),
        Form::Bytes => bytes_of(alloc, run),
    }
}

// The report, and the lines of the kept recordings behind it.
fn report_with_recordings(
    alloc: Global,
    run: &Run,
    budget: u32,
    size: u64,
) -> Result<Vec<u8>, AllocError>
    requires { HasEnded run.now.core.history }
    ensures { IfOk result (λ bytes. bytes.items ≡ report_text run.now.core budget size run.now.steps ++ dma_text run.now.core) }
{
    let mut text = report(alloc, &run.core, budget, size, run.steps)?;
    let lines = dma_lines(alloc, &run.core)?;
    text.extend_from_slice(&lines)?;
    Ok(text)
}

// What the core did: it has put out and logged no more than its numbers of 32 bits can tell.
fn bytes_of(alloc: Global, run: &Run) -> Result<Vec<u8>, AllocError>
    requires { length run.now.core.history ≤ most_budget + 2 }
    ensures { IfOk result (λ bytes. bytes.items ≡ dump_bytes (dump_of run.now.core)) }
{
    no_more_is_told_than_was_asked();
    let _told = run.core.log();
    write_dump(alloc, &run.core)
}
