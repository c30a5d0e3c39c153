//! The code of statements without a block, put behind the lines that there are.
#![tactic(auto)]

mod inside;
mod leaves;
mod simple;

/// How lines are put: statements with a block do it in the same way.
pub use core_code_expressions::lines;
/// What statements with a block ask, and the tests behind it.
pub use core_code_expressions::{put_asked, put_expression, put_loop_test, put_test};
pub use inside::{Inside, LoopPlaces};
pub use simple::put_simple;
