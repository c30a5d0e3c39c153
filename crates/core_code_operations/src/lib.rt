//! The instructions of operators, comparisons and calls, once their operands are there.
#![tactic(auto)]

mod arguments;
mod calls;
mod conditions;
mod methods;
mod operators;

pub use arguments::text_in;
pub use calls::{Callee, callee_of};
pub use conditions::{
    asked_comparison, is_opposed, loop_size, meant, put_loop_test, put_test, test_size,
};
/// How lines are put: expressions and statements do it in the same way.
pub use core_code_lines as lines;
pub use methods::{method_has_value, method_size, put_method_instrs};
pub use operators::{
    comparison_size, put_comparison, put_not, put_operator, put_unary, wrapped_size,
};
