//! The types of kernels.
#![tactic(auto)]

mod blocks;
mod checking;
mod headers;
mod program;
mod statements;

pub use checking::{Checked, check};
pub use kern_expression_types::{TypeFault, TypeKind};
