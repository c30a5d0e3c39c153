// Single runs of artiq_sim and artiq_trace.

use crate::case::Case;
use crate::left::Left;
use crate::run::{Program, run};
use std::alloc::{AllocError, Global};
use std::sync::Wait;
use std::thread::Threads;

/// Pushes what a run left, or that it is what the one before left. Fails only for want of memory.
pub fn push_run<R: Threads + Wait + Sync>(
    rt: &R,
    alloc: Global,
    case: &mut Case,
    words: &str,
    told: &mut String,
) -> Result<(), AllocError> {
    let left = run_piped(rt, alloc, case, words)?;
    push_left(told, case, &left)?;
    case.last = Some(left);
    Ok(())
}

/// Runs artiq_sim, but tells nothing. Fails only for want of memory.
pub fn run_untold<R: Threads + Wait + Sync>(
    rt: &R,
    alloc: Global,
    case: &mut Case,
    words: &str,
) -> Result<(), AllocError> {
    let left = run_piped(rt, alloc, case, words)?;
    case.last = Some(left);
    Ok(())
}

/// Pushes what a run of artiq_trace left. Fails only for want of memory.
pub fn push_trace<R: Threads + Wait + Sync>(
    rt: &R,
    alloc: Global,
    case: &Case,
    words: &str,
    told: &mut String,
) -> Result<(), AllocError> {
    let left = run(rt, alloc, case, Program::Trace, words, &case.text)?;
    left.push_lines(told, "")
}

// Runs artiq_sim, and over what it wrote again where that is asked for.
fn run_piped<R: Threads + Wait + Sync>(
    rt: &R,
    alloc: Global,
    case: &Case,
    words: &str,
) -> Result<Left, AllocError> {
    let Some((first, second)) = words.split_once(" | ") else {
        return run(rt, alloc, case, Program::Sim, words, &case.text);
    };
    let left = run(rt, alloc, case, Program::Sim, first, &case.text)?;
    run(rt, alloc, case, Program::Sim, second, &left.out)
}

fn push_left(told: &mut String, case: &Case, left: &Left) -> Result<(), AllocError> {
    if let Some(last) = &case.last {
        if left.is_same(last) {
            return write!(told, "\n= {}, the same", left.status);
        }
    }
    left.push_lines(told, case.hidden.as_str())
}
