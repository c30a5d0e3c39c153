//! The theorem of the compiler: the code of a kernel text does what the text means.
#![tactic(auto)]

mod laws;

pub use laws::{code_does_what_the_program_means, code_is_short, functions_stand_in_order};
