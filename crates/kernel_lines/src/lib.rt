//! The line of the kernel's text to which each instruction of its code belongs.
#![tactic(auto)]

mod blocks;
mod body;
mod laws;
mod program;
mod sizes;
mod stretches;

pub use laws::{each_instruction_has_a_line, what_asks_has_a_line};
pub use program::program_lines;
