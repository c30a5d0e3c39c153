//! What runs of kernels have alike, whatever their values are: what a function that runs knows, and which one runs first. For
//! proofs, how large the trees are that a run goes down by, and what is found in them.
#![tactic(auto)]

mod frame;
mod place;

pub use frame::Frame;
pub use place::function_at;
