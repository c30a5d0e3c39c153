//! The code of expressions.
#![tactic(auto)]

mod conditions;
mod effects;
mod expressions;
mod pieces;

pub use conditions::put_asked;
/// How lines are put: statements do it in the same way.
pub use core_code_operations::lines;
/// The tests of branches and loops, which stand behind what they test.
pub use core_code_operations::{put_loop_test, put_test};
pub use effects::put_effect;
pub use expressions::put_expression;
