//! What typing gives: values keep their types in every run of a typed program, and the compiler has what it asks for.
#![tactic(auto)]

mod laws;

pub use laws::{fitting_arguments_are_typed, judged_programs_are_suited, values_keep_their_types};
