// Runs of any program, alone or many over damaged bytes and failing calls.

use crate::case::Case;
use crate::damage::push_damage;
use crate::faults::push_faults;
use crate::left::Left;
use crate::recording::read_recording;
use crate::run::{Program, run};
use std::alloc::{AllocError, Global};
use std::sync::Wait;
use std::thread::Threads;

/// Pushes the answer to what a row asks for. Fails only for want of memory.
pub fn push_asked<R: Threads + Wait + Sync>(
    rt: &R,
    alloc: Global,
    case: &mut Case,
    asked: &str,
    told: &mut String,
) -> Result<(), AllocError> {
    let Some((how, words)) = asked.split_once(": ") else {
        return push_one(rt, alloc, case, asked, told);
    };
    match how.strip_prefix("each ") {
        Some(stream) => push_faults(rt, alloc, case, stream, words, told),
        None => push_damage(rt, alloc, case, how, words, told),
    }
}

// Pushes what one run left.
fn push_one<R: Threads + Wait + Sync>(
    rt: &R,
    alloc: Global,
    case: &Case,
    words: &str,
    told: &mut String,
) -> Result<(), AllocError> {
    let left = run_named(rt, alloc, case, words)?;
    left.push_lines(told, "")
}

/// Runs the program that the first word names on the row's text. Fails only for want of memory.
pub fn run_named<R: Threads + Wait + Sync>(
    rt: &R,
    alloc: Global,
    case: &Case,
    words: &str,
) -> Result<Left, AllocError> {
    let (program, rest) = words.split_once(' ').unwrap_or((words, ""));
    match program {
        "recording" => read_recording(alloc, &case.recording),
        "artiq_lab" => run(rt, alloc, case, Program::Lab, rest, &case.text),
        _ => run(rt, alloc, case, Program::Sim, rest, &case.text),
    }
}
