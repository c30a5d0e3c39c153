//! How many instructions the code of expressions and statements has, so that each jump forward is known before what it goes over
//! is put.
#![tactic(auto)]

mod conditions;
mod effects;
mod expressions;
mod pieces;
mod simple;
mod sizes;

pub use conditions::{asked_size, bare, is_turned};
/// The size of a loop's test, which is asked turned round where that takes fewer instructions.
pub use core_code_operations::loop_size;
pub use expressions::{Measure, expression_size};
pub use pieces::{has_second, negated, wrapped_type};
pub use sizes::{block_size, branch_size, statement_size};
