//! Reading blocks, and the statements that have blocks.
#![tactic(auto)]

mod block;
mod branches;
mod parts;

pub use block::block_at;
