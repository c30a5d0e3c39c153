//! Which functions of kernels are plain: those without a live call and without a record block, also in what they call.
#![tactic(auto)]

mod functions;
mod plain;

pub use functions::{note_plain, plain_functions};
