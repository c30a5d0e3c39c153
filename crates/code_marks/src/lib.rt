//! The marks of the code that a kernel becomes: they are right at every place.
#![tactic(auto)]

mod laws;

pub use laws::code_is_marked;
