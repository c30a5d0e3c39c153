//! Workers of a laboratory that run at once: each takes jobs from the scheduler's desk, compiles sources outside any desk, runs kernels at
//! the desks of the cores, and reports. How workers go about it is this project's own.
#![tactic(auto)]

mod at_desks;
mod halting;
mod idling;
mod reporting;
mod turns;
mod worker;

/// Laws on what workers leave in the histories: it lasts.
pub use stage_work::{judgements_last, ties_last};
pub use worker::{WorkEnd, Worker};
pub use worker_desks::Desks;
