//! Where a scheduler stands: which job of which run is due, and what each arrival and each report changes. Statuses,
//! priorities, due dates, flushing and pauses are as in the ARTIQ manual's management system; the lab clock and the history
//! are this project's own.
#![tactic(auto)]

mod advancing;
mod arriving;
mod board;
mod ending;
mod entry;
mod looking;
mod opening;
mod picking;
mod reporting;
mod stepping;
mod storing;

pub use board::Board;
pub use entry::{DataSet, Flight, JobName, KernelResult, SchedAct, SchedEntry, SetList, StepWord};
pub use looking::{Look, look_at};
