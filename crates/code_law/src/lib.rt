//! What the compiler promises, in one definition, and the law that the code of every kernel keeps it.
#![tactic(auto)]

mod laws;

/// The functions of a program that is fit are ready to be put.
pub use code_ranges::functions_are_ready;
pub use laws::{checked_programs_are_fit, code_does_as};
