// Sessions that several workers serve.

use crate::case::Case;
use crate::ranges::Ranges;
use crate::reports::push_report;
use crate::run::{Program, run};
use std::alloc::{AllocError, Global};
use std::sync::Wait;
use std::thread::Threads;
use table_rows::{push_answer, push_output};

// What each session begins with.
const BEFORE_WORKERS: &str = r#"{"workers":"#;

/// Has the session of a row served by each number of workers of a range in turn, and pushes what it is answered. Fails only for want
/// of memory.
pub fn serve_by_each<R: Threads + Wait + Sync>(
    rt: &R,
    alloc: Global,
    case: &Case,
    numbers: &str,
    told: &mut String,
) -> Result<(), AllocError> {
    let Some((first, last)) = range_of(numbers) else {
        return push_answer(told, "no numbers");
    };
    let mut ranges = Ranges::new(true);
    for workers in first..last.saturating_add(1) {
        let answer = answer_to(rt, alloc, case, workers)?;
        ranges.take(told, u64::from(workers), answer)?;
    }
    ranges.close(told)
}

fn range_of(numbers: &str) -> Option<(u32, u32)> {
    let (first, last) = numbers.split_once('-')?;
    Some((first.parse().ok()?, last.parse().ok()?))
}

// The status and the lines that the session of a row is answered, with so many workers.
fn answer_to<R: Threads + Wait + Sync>(
    rt: &R,
    alloc: Global,
    case: &Case,
    workers: u32,
) -> Result<String, AllocError> {
    let text = text_for(alloc, case, workers)?;
    let left = run(rt, alloc, case, Program::Lab, "", &text)?;
    let mut answer = format!(in alloc; "{}", left.status)?;
    push_report(&mut answer, case.apart.as_str(), &left.out)?;
    push_output(&mut answer, '!', "", &left.err)?;
    Ok(answer)
}

fn text_for(alloc: Global, case: &Case, workers: u32) -> Result<Vec<u8>, AllocError> {
    let mut json = String::new(alloc);
    write!(json, "{BEFORE_WORKERS}{workers},")?;
    let mut text = json.into_bytes();
    text.extend_from_slice(&case.text)?;
    Ok(text)
}
