//! The words of `artiq_sim`: which are accepted, and what they ask. The first word is the command, the others are its
//! options. All of this is the project's own.
#![tactic(auto)]

mod asked;
mod given;
mod options;
mod words;

pub use asked::{Asked, Options};
pub use option_values::ValueEnd as WordsEnd;
pub use words::read_words;
