//! How kernels compute on whole numbers: the operators, which wrap at the width of a type, and the comparisons.
#![tactic(auto)]

mod operators;

pub use operators::{changed, compared, operated};
pub use word_arithmetic::{low_byte, low_signed, low_word, moved_on};
