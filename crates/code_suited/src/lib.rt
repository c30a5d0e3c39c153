//! What typing gives the compiler.
#![tactic(auto)]

mod laws;

pub use laws::typed_programs_are_suited;
