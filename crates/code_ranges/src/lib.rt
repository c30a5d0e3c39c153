//! What the code of every kernel fits: the fields of an image, and the numbers of the compiler.
#![tactic(auto)]

mod laws;

pub use laws::{code_is_in_range, functions_are_ready, main_takes_nothing};
