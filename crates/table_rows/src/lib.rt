//! Tables of worked rows: how they are read, answered anew and compared. The form is this project's own.
//!
//! A table is read by paragraphs, between blank lines. One that begins with `==` and a blank is a row, and its first line the
//! row's name; any other paragraph is a remark. The lines of a row that begin with `>`, with `!`, or with `=` and a blank are
//! answers. The other lines are taken in order by a `Bench`, which says what they mean and answers them. A row is right where it
//! has the answers that it gets.
//!
//! Nothing is promised but that each function ends: a program over these tables shows that it compares by rows that come out
//! otherwise.
#![tactic(auto)]

mod answers;
mod rows;
mod texts;
mod walking;

pub use answers::{push_answer, push_output};
pub use rows::{Tally, is_answer, is_row, push_line};
pub use texts::{push_bytes, push_text};
pub use walking::{Bench, walk_table, walk_tables};
