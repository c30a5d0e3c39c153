// Tables, row by row.

use crate::rows::{Tally, is_answer, is_row, push_line};
use std::alloc::{AllocError, Global};
use std::rt::{Env, Files};
use std::{env, fs, io};

/// What takes the lines of one row and answers them.
pub trait Bench: Drop {
    /// A bench that has taken no line.
    fn new(alloc: Global) -> Self;

    /// Takes a line that is no answer, and pushes the lines that answer it, each behind a line feed. Pushes nothing where the
    /// line asks for nothing, as a remark. Fails only for want of memory.
    fn take(&mut self, alloc: Global, line: &str, told: &mut String) -> Result<(), AllocError>;
}

/// Goes through the tables whose paths are the words behind the program's name, and prints of each the rows
/// that come out otherwise, as they come out, and a line with the table's name, the number of its rows, and how many came out
/// otherwise. Fails where a table can't be read, where the report can't be written, and for want of memory.
pub fn walk_tables<B: Bench, R: Env + Files + Print + AllocGlobal>(rt: &R) -> io::Result<()> {
    for path in env::args(rt)?.skip(1) {
        let table = fs::read_to_string(rt, path.as_str())?;
        let report = walk_table::<B>(rt.alloc(), path.as_str(), table.as_str())?;
        print!(rt; "{report}")?;
    }
    Ok(())
}

/// Goes through the rows of a table, and gives what is printed of it, as above. Fails only for want of memory.
pub fn walk_table<B: Bench>(alloc: Global, name: &str, table: &str) -> Result<String, AllocError> {
    let mut tally = Tally::new(alloc);
    for paragraph in table.trim_end().split("\n\n") {
        if is_row(paragraph) {
            let told = row_told::<B>(alloc, paragraph)?;
            tally.count(paragraph, told.as_str())?;
        }
    }
    tally.report(name)
}

// A row as it comes out: its lines but for the answers, and the answers that they get.
fn row_told<B: Bench>(alloc: Global, row: &str) -> Result<String, AllocError> {
    let mut told = String::new(alloc);
    let mut bench = B::new(alloc);
    for line in row.split('\n') {
        if !is_answer(line) {
            push_line(&mut told, line)?;
            bench.take(alloc, line, &mut told)?;
        }
    }
    Ok(told)
}
