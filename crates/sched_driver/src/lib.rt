//! A scheduler that is driven by its calls alone: one chair takes and reports, and the kit of a run is the number of its source.
//! Benchmarks and worked histories stand on it.
#![tactic(auto)]

mod driver;
mod token;

pub use driver::Driver;
pub use token::Token;
