//! Reading what stands on one line: simple statements, and the headers of blocks.
#![tactic(auto)]

mod behind;
mod headers;
mod parts;
mod simple;

pub use behind::expression_behind;
pub use headers::{Bounds, WithItem, bounds_at, with_item_at};
pub use simple::{begins_with_comma, simple_at};
