//! What one kernel step of the laboratory does to its core.
#![tactic(auto)]

mod asking;
mod keeping;
mod kernel;
mod owner;
mod running;
mod turn;

/// What became of a request.
pub use core_session::Turn;
pub use keeping::keep_set;
pub use kernel::run_kernel;
/// What a kernel step runs, and the law on its runs.
pub use kernel_session::{Compiled, runs_with_fitting_replies_are_meant};
pub use running::run_function;
pub use turn::ask_stopped;
