// What a table is made of, and what is told of it. A program whose rows need more than an allocator, as threads, goes through its
// tables by these; `walk_tables` does so for the others.

use std::alloc::{AllocError, Global};

/// How the rows of a table came out.
#[derive(Drop)]
pub struct Tally {
    // Those that came out otherwise, as they came out.
    others: String,
    rows: u32,
    wrong: u32,
}

impl Tally {
    /// That of no row.
    pub fn new(alloc: Global) -> Tally {
        Tally {
            others: String::new(alloc),
            rows: 0,
            wrong: 0,
        }
    }

    /// Counts a row that came out as the second text says. Fails only for want of memory.
    pub fn count(&mut self, row: &str, told: &str) -> Result<(), AllocError> {
        self.rows = self.rows.saturating_add(1);
        if told != row {
            self.wrong = self.wrong.saturating_add(1);
            self.others.push_str(told)?;
            self.others.push_str("\n\n")?;
        }
        Ok(())
    }

    /// The rows that came out otherwise, and a line with the table's name, the number of its rows, and how many came out
    /// otherwise. Fails only for want of memory.
    pub fn report(self, name: &str) -> Result<String, AllocError> {
        let mut report = self.others;
        write!(report, "{name}: {} rows, {} wrong\n", self.rows, self.wrong)?;
        Ok(report)
    }
}

/// Whether the paragraph of a table is a row.
pub fn is_row(paragraph: &str) -> bool {
    paragraph.starts_with("== ")
}

/// Whether the line of a row is an answer.
pub fn is_answer(line: &str) -> bool {
    line.starts_with('>') || line.starts_with('!') || line.starts_with("= ")
}

/// Pushes a line, behind a line feed if it isn't the first. Fails only for want of memory.
pub fn push_line(told: &mut String, line: &str) -> Result<(), AllocError> {
    if !told.is_empty() {
        told.push('\n')?;
    }
    told.push_str(line)
}
