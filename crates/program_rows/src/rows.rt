// Tables, row by row.

use crate::asked::push_asked;
use crate::case::Case;
use crate::crews::serve_by_each;
use crate::sims::{push_run, push_trace, run_untold};
use crate::words::push_what_words_ask;
use std::alloc::{AllocError, Global};
use std::sync::Wait;
use std::thread::Threads;
use table_rows::{Tally, is_answer, is_row, push_line};

// What the rows of a table run.
#[derive(Clone, Copy)]
enum Kind {
    Sim,
    Trace,
    Crew,
    Any,
}

/// Goes through the rows of a table, and gives those that come out otherwise and how many they are. Fails only for want of memory.
pub fn walk_rows<R: Threads + Wait + Sync>(
    rt: &R,
    alloc: Global,
    name: &str,
    table: &str,
) -> Result<String, AllocError> {
    let kind = kind_of(name);
    let mut tally = Tally::new(alloc);
    for paragraph in table.trim_end().split("\n\n") {
        if is_row(paragraph) {
            let told = row_told(rt, alloc, kind, paragraph)?;
            tally.count(paragraph, told.as_str())?;
        }
    }
    tally.report(name)
}

// By the folder of a table.
fn kind_of(name: &str) -> Kind {
    if name.contains("sim/") {
        Kind::Sim
    } else if name.contains("trace/") {
        Kind::Trace
    } else if name.contains("crew/") {
        Kind::Crew
    } else {
        Kind::Any
    }
}

// How many bytes a write moves at most, unless the row says it.
fn write_of(kind: Kind) -> u64 {
    match kind {
        Kind::Sim | Kind::Trace => 16,
        Kind::Crew | Kind::Any => 4096,
    }
}

// A row as it comes out: its lines but for the answers, and the answers that they get.
fn row_told<R: Threads + Wait + Sync>(
    rt: &R,
    alloc: Global,
    kind: Kind,
    row: &str,
) -> Result<String, AllocError> {
    let mut told = String::new(alloc);
    let mut case = Case::new(alloc, write_of(kind));
    for line in row.split('\n') {
        if !is_answer(line) {
            push_line(&mut told, line)?;
            take(rt, alloc, kind, &mut case, line, &mut told)?;
        }
    }
    Ok(told)
}

// Takes a line of a row, and answers it.
fn take<R: Threads + Wait + Sync>(
    rt: &R,
    alloc: Global,
    kind: Kind,
    case: &mut Case,
    line: &str,
    told: &mut String,
) -> Result<(), AllocError> {
    let (sign, asked) = line.split_once(' ').unwrap_or((line, ""));
    match sign {
        "$" => answer(rt, alloc, kind, case, asked, told),
        "?" => run_untold(rt, alloc, case, asked),
        "asks" => push_what_words_ask(alloc, case, asked, told),
        _ => case.take(line),
    }
}

// Answers what a row asks for.
fn answer<R: Threads + Wait + Sync>(
    rt: &R,
    alloc: Global,
    kind: Kind,
    case: &mut Case,
    asked: &str,
    told: &mut String,
) -> Result<(), AllocError> {
    match kind {
        Kind::Sim => push_run(rt, alloc, case, asked, told),
        Kind::Trace => push_trace(rt, alloc, case, asked, told),
        Kind::Crew => serve_by_each(rt, alloc, case, asked, told),
        Kind::Any => push_asked(rt, alloc, case, asked, told),
    }
}
