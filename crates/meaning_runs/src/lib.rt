//! The slow interpreter's recursion: expressions run calls, calls run functions, functions run blocks and blocks run
//! expressions. A contract says of each that it does what the definition of the meaning says, word for word.
#![tactic(auto)]

mod blocks;
mod expressions;
mod functions;
mod loops;
mod simple;
mod timed;

pub use blocks::run_block;
pub use expressions::evaluate;
pub use functions::run_function;
