//! Arithmetic on values of 64 bits, as kernels compute with them: what wraps, at which width, and how a quotient is rounded.
#![tactic(auto)]

mod numbers;

pub use numbers::{
    low_byte, low_signed, low_word, moved_on, quotient, remainder, shifted_left, shifted_right,
};
