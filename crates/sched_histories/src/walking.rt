// A scheduler that is taken through calls.

use crate::calls::{Call, Report, call_of};
use crate::texts::{next_text, status_word, step_word, value_text, why_text};
use exp_runs::{Run, Status};
use rtio_types::{Name, Outcome, Value};
use sched_core::{DataSet, KernelResult, SchedAct, SetList, Why};
use sched_driver::Driver;
use std::alloc::{AllocError, Global};

/// Makes a call. What is given has the call, its answer, the number of entries and the clock after it, and the runs that stand
/// elsewhere than before it.
pub fn line_of(alloc: Global, driver: &mut Driver, call: &str) -> Result<String, AllocError> {
    let seen = statuses_of(alloc, driver.sched().runs().items())?;
    let answer = answer_of(alloc, driver, call)?;
    let (entries, clock) = reached(driver);
    let moved = moved_text(alloc, driver.sched().runs().items(), &seen)?;
    format!(in alloc; "{call} | {answer} | {entries} {clock} |{moved}")
}

fn reached(driver: &Driver) -> (usize, u64) {
    let sched = driver.sched();
    (sched.history().len(), sched.clock())
}

fn statuses_of(alloc: Global, runs: &[Run]) -> Result<Vec<Status>, AllocError> {
    let mut statuses = Vec::new(alloc);
    for run in runs {
        statuses.push(run.status)?;
    }
    Ok(statuses)
}

// The runs that stand elsewhere than they were seen.
fn moved_text(alloc: Global, runs: &[Run], seen: &[Status]) -> Result<String, AllocError> {
    let mut text = String::new(alloc);
    for (place, run) in runs.iter().enumerate() {
        if seen.get(place) != Some(&run.status) {
            push_run(alloc, &mut text, run)?;
        }
    }
    Ok(text)
}

fn push_run(alloc: Global, text: &mut String, run: &Run) -> Result<(), AllocError> {
    let moved = format!(in alloc; " {} {}", run.rid, status_word(run.status))?;
    text.push_str(moved.as_str())
}

// Makes a call, and gives its answer.
fn answer_of(alloc: Global, driver: &mut Driver, call: &str) -> Result<String, AllocError> {
    match call_of(call) {
        Some(Call::Next) => next_text(alloc, &driver.next(alloc)?),
        Some(Call::Report(report, source)) => report_text(alloc, driver, report, source),
        Some(Call::Stop(chair)) => {
            driver.stop(alloc, chair);
            String::from_str(alloc, "ok")
        }
        Some(Call::Read(name)) => data_text(alloc, driver, name),
        None => String::from_str(alloc, "no call"),
    }
}

// Reports, and gives the answer.
fn report_text(
    alloc: Global,
    driver: &mut Driver,
    report: Report,
    source: u32,
) -> Result<String, AllocError> {
    match reported(alloc, driver, report, source) {
        Ok(()) => String::from_str(alloc, last_word(driver)),
        Err(why) => why_text(alloc, why),
    }
}

fn reported(alloc: Global, driver: &mut Driver, report: Report, source: u32) -> Result<(), Why> {
    match report {
        Report::Prepared(rid) => driver.prepared(alloc, rid, source),
        Report::Failed(rid) => driver.failed(alloc, rid),
        Report::Step(rid, pos, outcome) => {
            let Ok(ran) = ran_to(alloc, outcome) else {
                return Err(Why::Memory);
            };
            driver.step_done(alloc, rid, pos, source, ran)
        }
        Report::Analyzed(rid) => driver.analyzed(alloc, rid),
    }
}

// The word of the last entry: a step's own, or that the report was taken.
fn last_word(driver: &Driver) -> &'static str {
    match driver.sched().history().last() {
        Some(entry) => match &entry.act {
            SchedAct::Stepped { word, .. } => step_word(*word),
            _ => "ok",
        },
        None => "none",
    }
}

// What a kernel came to that set the dataset `k` to 7.
fn ran_to(alloc: Global, outcome: Outcome) -> Result<KernelResult, AllocError> {
    let mut sets = Vec::new(alloc);
    if let Some(name) = Name::read(b"k") {
        let value = Value::Int(7);
        sets.push(DataSet { name, value })?;
    }
    Ok(KernelResult {
        outcome,
        sets: SetList::of(sets),
        steps: 1,
    })
}

// The value of the dataset of this name.
fn data_text(alloc: Global, driver: &Driver, name: &str) -> Result<String, AllocError> {
    match Name::read(name.as_bytes()) {
        Some(name) => value_text(alloc, driver.sched().datasets().get(&name)),
        None => String::from_str(alloc, "no name"),
    }
}
