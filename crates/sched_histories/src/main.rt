//! Takes schedulers through tables of worked histories, and writes each line that comes out otherwise. Kernels aren't run.
//!
//! A table is read by paragraphs. One that begins with `=` is a history: what it shows, then its arrivals, each behind `+` (behind
//! `+62` so often), and a line for each call:
//!
//!     CALL | WHAT IT ANSWERS | ENTRIES CLOCK | the runs that stand elsewhere than before the call, each with its status
//!
//! There are two pipelines. The entries are those of the scheduler's history and the clock is the lab's, both after the call. The
//! calls are those of one chair: `next`; `prepared RID`, `failed RID` (its source is refused), `analyzed RID`; `step RID POS`, of a
//! kernel that returned or of another step; `raised RID POS`, `budget RID POS`, `horizon RID POS`, of a kernel that ended so; `by_1`
//! stands before a report whose kit is of source 1 (the others' are of source 0); `stop CHAIR`; and `data NAME`, which only reads. A
//! kernel sets the dataset `k` to 7, whatever its end.
#![tactic(auto)]

mod calls;
mod opening;
mod texts;
mod walking;

use crate::opening::driver_of;
use crate::walking::line_of;
use sched_driver::Driver;
use std::{env, fs, io};

fn main(rt: HostRuntime) -> io::Result<()> {
    let mut words = env::args(&rt)?.skip(1);
    let Some(first) = words.next() else {
        return println!(rt; "words: EXPERIMENTS TABLE..");
    };
    let experiments = fs::read_to_string(&rt, first.as_str())?;
    for path in words {
        let table = fs::read_to_string(&rt, path.as_str())?;
        let tally = walk_table(&rt, experiments.as_str(), table.as_str())?;
        let (histories, calls, wrong) = (tally.histories, tally.calls, tally.wrong);
        println!(rt; "{path}: {histories} histories, {calls} calls, {wrong} wrong")?;
    }
    Ok(())
}

// How many histories and calls were gone through, and how many lines came out otherwise.
#[derive(Clone, Copy)]
struct Tally {
    histories: u32,
    calls: u32,
    wrong: u32,
}

// Goes through the histories of a table.
fn walk_table(rt: &HostRuntime, experiments: &str, table: &str) -> io::Result<Tally> {
    let mut tally = Tally {
        histories: 0,
        calls: 0,
        wrong: 0,
    };
    for paragraph in table.split("\n\n") {
        if paragraph.starts_with('=') {
            walk_history(rt, experiments, paragraph, &mut tally)?;
        }
    }
    Ok(tally)
}

// Goes through the calls of a history.
fn walk_history(
    rt: &HostRuntime,
    experiments: &str,
    history: &str,
    tally: &mut Tally,
) -> io::Result<()> {
    tally.histories = tally.histories.saturating_add(1);
    let Some(mut driver) = driver_of(rt.alloc(), experiments, history) else {
        tally.wrong = tally.wrong.saturating_add(1);
        return println!(rt; "no session: {}", title_of(history));
    };
    for line in history.lines() {
        if let Some((call, _)) = line.split_once(" | ") {
            walk_call(rt, &mut driver, call, line, tally)?;
        }
    }
    Ok(())
}

// The first line of a history.
fn title_of(history: &str) -> &str {
    history.lines().next().unwrap_or(history)
}

// Makes a call, and writes its line where it comes out otherwise.
fn walk_call(
    rt: &HostRuntime,
    driver: &mut Driver,
    call: &str,
    line: &str,
    tally: &mut Tally,
) -> io::Result<()> {
    tally.calls = tally.calls.saturating_add(1);
    let told = line_of(rt.alloc(), driver, call)?;
    if told.as_str() == line {
        return Ok(());
    }
    tally.wrong = tally.wrong.saturating_add(1);
    println!(rt; "- {line}\n+ {told}")
}
