//! The program `artiq_trace` as a function of its words and bytes, with what it promises: it runs a kernel as `artiq_sim`
//! does, and tells of each request which line of the text asked it, how early each output was, and what became of it.
#![tactic(auto)]

mod answer;
mod laws;
mod places;
mod top;
mod words;

pub use laws::{a_whole_trace_misses_no_output, no_trace_leaves_out_an_output};
pub use top::trace_top;
pub use top_calls::{own_words, without_memory};
