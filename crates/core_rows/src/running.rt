// Schedules, and sessions of code.

use core_image::Verified;
use core_session::{Ran, SessionEnd, drain_core, run_code};
use rtio_core::{Act, Core, Entry, StartOf};
use rtio_types::IntList;
use run_schedule::{Schedule, Step};
use std::alloc::{AllocError, Global};

/// The first function of a source, without arguments, in this run.
pub fn main_of(alloc: Global, rid: u64) -> StartOf {
    StartOf {
        source: 0,
        function: 0,
        args: IntList::of(Vec::new(alloc)),
        rid,
        pos: 0,
    }
}

fn schedule_of(word: &str) -> Option<Schedule> {
    if word == "lockstep" {
        return Some(Schedule::lockstep());
    }
    match word.strip_prefix("mix:") {
        Some(number) => Some(Schedule::mix(number.parse().ok()?)),
        None => Schedule::letters(word.as_bytes()),
    }
}

/// Tells the next steps of a schedule, one for each place of the first word, which says by `h` where the core is stopped.
pub fn tell_steps(told: &mut String, words: &str) -> Result<(), AllocError> {
    let (held, word) = words.split_once(' ').unwrap_or((words, ""));
    let Some(mut schedule) = schedule_of(word) else {
        return told.push_str("no schedule");
    };
    for place in held.as_bytes() {
        told.push_str(match schedule.next(*place == b'h') {
            Step::Cpu => "c",
            Step::Tick => "t",
        })?;
    }
    Ok(())
}

/// Lets a core without a session drain, and tells where its counter stands.
pub fn tell_drained(told: &mut String, core: &mut Core) -> Result<(), AllocError> {
    if core.session().is_some() {
        return told.push_str("a session is open");
    }
    drain_core(core);
    write!(told, "{}", core.counter())
}

/// Runs the code as a session of ten units, and tells how it ended and where the core's entries stand.
pub fn tell_session(
    alloc: Global,
    told: &mut String,
    core: &mut Core,
    code: &Verified,
    word: &str,
) -> Result<(), AllocError> {
    let Some(mut schedule) = schedule_of(word) else {
        return told.push_str("no schedule");
    };
    match ran(alloc, core, code, &mut schedule) {
        Some(Ok(ran)) => write!(told, "{:?}, {} steps, at", ran.outcome, ran.steps)?,
        Some(Err(SessionEnd::Busy { rid })) => write!(told, "busy with {rid}, at")?,
        Some(Err(SessionEnd::Memory)) => return Err(AllocError),
        None => return told.push_str("no main"),
    }
    tell_counters(told, core.history())
}

fn tell_counters(told: &mut String, history: &[Entry]) -> Result<(), AllocError> {
    for entry in history {
        let at = at_of(entry);
        write!(told, " {at}")?;
    }
    Ok(())
}

// Runs the first function of the code, which has no parameter; None where there is none.
fn ran(
    alloc: Global,
    core: &mut Core,
    code: &Verified,
    schedule: &mut Schedule,
) -> Option<Result<Ran, SessionEnd>> {
    let functions = code.code().functions.items();
    let of = main_of(alloc, 7);
    let index = of.function as usize;
    if index >= functions.len() || of.args.items().len() != functions[index].params as usize {
        return None;
    }
    Some(run_code(alloc, core, code, of, 10, schedule))
}

fn at_of(entry: &Entry) -> u64 {
    match entry.act {
        Act::Start { at, .. } | Act::Asked { at, .. } | Act::End { at, .. } => at,
    }
}
