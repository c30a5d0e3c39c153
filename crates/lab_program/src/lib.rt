//! The program `artiq_lab` as a function: a session's text goes in, and the report of the finished laboratory comes out.
#![tactic(auto)]

mod answer;
mod draining;
mod laboratory;
mod opening;
mod refusal;
mod telling;
mod top;

pub use laboratory::run_laboratory;
pub use opening::open_cores;
pub use top::lab_top;
pub use top_calls::{own_words, without_memory};
