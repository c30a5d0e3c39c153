//! The code of a kernel text as a function of its tree: the instructions of each part with their marks, and how many there are.
#![tactic(auto)]

mod laws;
mod test_kind;

pub use laws::code_has_its_size;
pub use test_kind::TestKind;
