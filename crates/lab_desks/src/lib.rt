//! The desks of a crew: opened for a session's scheduler and cores, each with a chair for every worker, and closed behind them. That a
//! laboratory has several workers is this project's own.
#![tactic(auto)]

mod closing;
mod columns;
mod opening;

pub use closing::{close_cores, close_sched};
pub use columns::last_of_each;
pub use opening::{Chairs, open_desks};
