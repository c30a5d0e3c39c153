//! What one kernel step of the laboratory does at the desk of its core: a session of a chair, which holds the core's desk only to
//! start, to ask and to end, while the processor runs outside. How workers go about a desk is this project's own.
#![tactic(auto)]

mod asking;
mod at_desk;
mod ending;
mod kernel;
mod law;
mod running;
mod starting;

pub use kernel::run_kernel_at;
pub use law::{open_sessions_are_alone, open_sessions_were_open_before};
