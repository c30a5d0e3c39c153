//! The text in which `artiq_lab` reports a finished laboratory, in this project's own form.
#![tactic(auto)]

mod cores;
mod datasets;
mod runs;
mod steps;
mod text;

pub use cores::core_lines;
pub use text::{report, report_of_lines};
