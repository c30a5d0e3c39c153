//! Lines of code, as the compiler puts them behind one another: instructions with the marks that follow from the first one.
#![tactic(auto)]

mod lines;
mod marks;

pub use lines::{put, put_all};
pub use marks::{mark_after, raised, with_handler, with_recording};
