//! What checking gives the run of a program: its integers are of 64 bits, and its calls have their texts.
#![tactic(auto)]

mod laws;

pub use laws::checked_programs_can_run;
