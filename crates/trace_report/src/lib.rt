//! The text in which `artiq_trace` tells where each request of a run came from, by how much it was early, and what became of
//! each output, in this project's own form.
#![tactic(auto)]

mod closing;
mod laws;
mod least;
mod outputs;
mod passed;
mod place;
mod requests;
mod texts;
mod words;

pub use laws::no_output_is_left_out;
pub use outputs::misses;
pub use place::TextPlace;
pub use texts::{Ended, trace};
