//! The slack run's recursion: expressions run calls, calls run functions, functions run blocks and blocks run expressions. A
//! contract says of each that it does what the definition of the run without a core says, word for word.
#![tactic(auto)]

mod blocks;
mod branches;
mod expressions;
mod functions;
mod loops;
mod simple;
mod timed;

pub use blocks::run_block;
pub use expressions::evaluate;
pub use functions::run_function;
