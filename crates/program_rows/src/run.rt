// Runs of the programs.

ghost use Rattle.std.specs.Prelude.{◌≤◌};

use crate::case::Case;
use crate::left::Left;
use lab_io::{Page, Tape};
use lab_kits::OpenGate;
use lab_program::lab_top;
use sim_program::sim_top;
use std::alloc::{AllocError, Global};
use std::sync::Wait;
use std::thread::Threads;
use trace_program::trace_top;

// How many bytes a sink takes.
const ROOM: u64 = 2_000_000;

/// A program that a row runs.
#[derive(Clone, Copy)]
pub enum Program {
    Sim,
    Trace,
    Lab,
}

/// Runs a program under words on a text, as the row has said. Fails only for want of memory.
pub fn run<R: Threads + Wait + Sync>(
    rt: &R,
    alloc: Global,
    case: &Case,
    program: Program,
    words: &str,
    text: &[u8],
) -> Result<Left, AllocError> {
    let owned = words_of(alloc, words, case)?;
    let fails = case.source.clone()?;
    let mut source = Tape::new(text.to_vec(alloc)?, at_least_1(case.read), fails);
    let mut out = page(alloc, case.write, &case.out)?;
    let mut err = page(alloc, case.write, &case.err)?;
    let status = if words == "(no memory)" {
        without_memory(program, &mut err)
    } else {
        status_of(rt, alloc, program, &owned, &mut source, &mut out, &mut err)
    };
    what_is_left(alloc, status, &out, &err)
}

// The status of a program, called as it starts itself.
fn status_of<R: Threads + Wait + Sync>(
    rt: &R,
    alloc: Global,
    program: Program,
    words: &[String],
    source: &mut Tape,
    out: &mut Page,
    err: &mut Page,
) -> u8 {
    match program {
        Program::Sim => sim_top(alloc, words, source, out, err),
        Program::Trace => trace_top(alloc, words, source, out, err),
        Program::Lab => lab_top(rt, alloc, words, source, out, err, &OpenGate),
    }
}

// The status of a program for whose words there is no memory.
fn without_memory(program: Program, err: &mut Page) -> u8 {
    match program {
        Program::Trace => trace_program::without_memory(err),
        _ => sim_program::without_memory(err),
    }
}

fn page(alloc: Global, write: u64, fails: &[u64]) -> Result<Page, AllocError> {
    Page::new(alloc, ROOM, at_least_1(write), fails.to_vec(alloc)?)
}

fn at_least_1(piece: u64) -> u64
    ensures { 1 ≤ result }
{
    if piece == 0 { 1 } else { piece }
}

fn what_is_left(alloc: Global, status: u8, out: &Page, err: &Page) -> Result<Left, AllocError> {
    let out = out.held().to_vec(alloc)?;
    let err = err.held().to_vec(alloc)?;
    Ok(Left { status, out, err })
}

/// The words of a line and what stands behind them: with one blank or more between two, `""` as one of no letter, and the digits of
/// the row's recording in place of `HEX` at the end of a word. Fails only for want of memory.
pub fn words_of(alloc: Global, line: &str, case: &Case) -> Result<Vec<String>, AllocError> {
    let line = format!(in alloc; "{line}{}", case.more)?;
    let mut owned = Vec::new(alloc);
    for word in line.as_str().split(' ') {
        if !word.is_empty() {
            owned.push(word_of(alloc, word, &case.recording)?)?;
        }
    }
    Ok(owned)
}

fn word_of(alloc: Global, word: &str, recording: &[u8]) -> Result<String, AllocError> {
    if word == "\"\"" {
        return Ok(String::new(alloc));
    }
    let Some(before) = word.strip_suffix("HEX") else {
        return String::from_str(alloc, word);
    };
    let mut word = String::from_str(alloc, before)?;
    for byte in recording {
        write!(word, "{byte:02x}")?;
    }
    Ok(word)
}
