//! The meaning of a kernel's function under given replies: the slow interpreter of the language, which is what its
//! definition says, word for word.
#![tactic(auto)]

mod whole;

pub use timeline_sem::MeantOutcome;
pub use whole::{Meant, meaning};
