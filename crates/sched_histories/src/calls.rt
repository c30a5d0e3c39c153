// The calls, as a table writes them.

use rtio_types::{Exc, Outcome};

/// A call of the one chair that works.
#[derive(Clone, Copy)]
pub enum Call<'a> {
    /// The job that is due is taken.
    Next,
    /// A job is reported, with a kit of this source.
    Report(Report, u32),
    /// A chair halts the scheduler.
    Stop(u32),
    /// The dataset of this name is read.
    Read(&'a str),
}

/// A report of a run.
#[derive(Clone, Copy)]
pub enum Report {
    /// Its preparation.
    Prepared(u64),
    /// That its source is refused.
    Failed(u64),
    /// A step; if it is a kernel's, with this outcome.
    Step(u64, u32, Outcome),
    /// Its analysis.
    Analyzed(u64),
}

/// The call of a text; None where it is none.
pub fn call_of(text: &str) -> Option<Call<'_>> {
    let Some((verb, rest)) = text.split_once(' ') else {
        return if text == "next" {
            Some(Call::Next)
        } else {
            None
        };
    };
    match verb {
        "data" => Some(Call::Read(rest)),
        "stop" => Some(Call::Stop(rest.parse().ok()?)),
        "by_1" => Some(Call::Report(report_of(rest)?, 1)),
        _ => Some(Call::Report(report_of(text)?, 0)),
    }
}

// The report of a verb and one or two numbers.
fn report_of(text: &str) -> Option<Report> {
    let (verb, rest) = text.split_once(' ')?;
    match rest.split_once(' ') {
        Some((rid, pos)) => {
            let (rid, pos) = (rid.parse().ok()?, pos.parse().ok()?);
            Some(Report::Step(rid, pos, outcome_of(verb)?))
        }
        None => whole_report(verb, rest.parse().ok()?),
    }
}

// A report that has the run's number alone.
fn whole_report(verb: &str, rid: u64) -> Option<Report> {
    match verb {
        "prepared" => Some(Report::Prepared(rid)),
        "failed" => Some(Report::Failed(rid)),
        "analyzed" => Some(Report::Analyzed(rid)),
        _ => None,
    }
}

// How the kernel of a step ended, by the verb that reports it.
fn outcome_of(verb: &str) -> Option<Outcome> {
    match verb {
        "step" => Some(Outcome::Returned),
        "raised" => Some(Outcome::Raised(Exc::RTIOUnderflow)),
        "budget" => Some(Outcome::Budget),
        "horizon" => Some(Outcome::Horizon),
        _ => None,
    }
}
