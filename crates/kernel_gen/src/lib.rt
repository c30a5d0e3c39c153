//! A kernel that a number makes, for long runs: 100 turns of 200 pulses, on channels and at times that look drawn by lot. It
//! is this project's own.
#![tactic(auto)]

mod generating;
mod pulse;

pub use generating::generated_text;
