//! The types of the expressions of kernels, with the first fault, and what the text has before them.
#![tactic(auto)]

mod callee;
mod expressions;
mod fault;
mod fits;
mod known;
mod names;
mod place;
mod reserved;

pub use expressions::{check_element, check_elements, check_expression, check_variable};
pub use fault::{TypeFault, TypeKind};
pub use fits::{
    as_condition, as_integer, as_statement, declared_wanted, fit, kept_misfit, refuse_if,
    refuse_some, scalar_of,
};
pub use known::Known;
pub use names::{FunctionNames, Locals, is_among};
pub use place::{Given, Place};
pub use reserved::{is_exception, is_reserved};
