// Runs in which a call of a stream fails.

use crate::asked::run_named;
use crate::case::{Call, Case, Stream, stream_of};
use crate::left::Left;
use crate::ranges::Ranges;
use std::alloc::{AllocError, Global};
use std::sync::Wait;
use std::thread::Threads;
use table_rows::push_answer;

// More calls than a run makes.
const MOST: u64 = 10_000;

/// Pushes the answers of runs in each of which one call of the named stream fails, up to the first that isn't made. Fails only for
/// want of memory.
pub fn push_faults<R: Threads + Wait + Sync>(
    rt: &R,
    alloc: Global,
    case: &mut Case,
    stream: &str,
    words: &str,
    told: &mut String,
) -> Result<(), AllocError> {
    let Some(stream) = stream_of(stream) else {
        return push_answer(told, "no stream");
    };
    let whole = run_named(rt, alloc, case, words)?;
    let mut ranges = Ranges::new(false);
    for number in 0..MOST {
        let call = Call { stream, number };
        if !take_failing(rt, alloc, case, words, call, &whole, &mut ranges, told)? {
            break;
        }
    }
    ranges.close(told)
}

// Takes the answer of a run in which a call fails, and gives whether it is another than without that.
fn take_failing<R: Threads + Wait + Sync>(
    rt: &R,
    alloc: Global,
    case: &mut Case,
    words: &str,
    call: Call,
    whole: &Left,
    ranges: &mut Ranges,
    told: &mut String,
) -> Result<bool, AllocError> {
    let left = run_failing(rt, alloc, case, words, call)?;
    let answer = answer_of(alloc, call, case.write, whole, &left)?;
    ranges.take(told, call.number, answer)?;
    Ok(!left.is_same(whole))
}

// Runs a program while a further call fails.
fn run_failing<R: Threads + Wait + Sync>(
    rt: &R,
    alloc: Global,
    case: &mut Case,
    words: &str,
    call: Call,
) -> Result<Left, AllocError> {
    case.push(call)?;
    let left = run_named(rt, alloc, case, words);
    case.pop(call.stream);
    left
}

// What is told of a run in which a call failed, beside the whole one.
fn answer_of(
    alloc: Global,
    call: Call,
    write: u64,
    whole: &Left,
    left: &Left,
) -> Result<String, AllocError> {
    if left.is_same(whole) {
        String::from_str(alloc, "the same")
    } else if is_part(call, write, whole, left) {
        format!(in alloc; "{}, a first part", left.status)
    } else {
        left.line(alloc)
    }
}

// Whether the sink whose call fails holds just what its calls before wrote, and the other one nothing.
fn is_part(call: Call, write: u64, whole: &Left, left: &Left) -> bool {
    let bytes = call.number.saturating_mul(write) as usize;
    match call.stream {
        Stream::Source => false,
        Stream::Out => left.err.is_empty() && is_first_part(&left.out, &whole.out, bytes),
        Stream::Err => left.out.is_empty() && is_first_part(&left.err, &whole.err, bytes),
    }
}

// Whether just these first bytes of the whole are held.
fn is_first_part(held: &[u8], whole: &[u8], bytes: usize) -> bool {
    whole.get(..bytes).unwrap_or(whole) == held
}
