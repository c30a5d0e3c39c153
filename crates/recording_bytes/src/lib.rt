//! The bytes of a recording, in two formats of this project's own: format 1 has fields of fixed widths, format 2 as few
//! bytes as each number needs. What is written is in format 2, and both are read.
#![tactic(auto)]

mod faults;
mod format;
mod laws;
mod numbers;
mod reading;
mod writing;

pub use laws::{
    a_recording_has_one_spelling_in_a_format, a_spelling_has_one_recording,
    no_spelling_begins_another, right_bytes_are_spellings,
};
pub use reading::{DmaEnd, decode};
pub use writing::encode;
