//! The session of a laboratory: its settings, the pipelines with the edges of their inputs, the texts of kernels, the
//! experiments with their steps, and the orders that arrive while they run. Experiments, pipelines, priorities, due
//! dates, flushing and the steps of a run are those of the ARTIQ manual's management system; the session itself and
//! the limits of its lists are this project's own.
//!
//! A session is plain data, and any may be made. What one that is served keeps to (the ranges of its fields, and the
//! rules on indexes, order, stages and submissions) is the condition `is_session` of `specs/Sessions.antt`.
#![tactic(auto)]

mod arrival;
mod copied;
mod lists;
mod path;
mod session;
mod step;

pub use arrival::{Arrival, ArrivalAct, Submission};
pub use lists::{ArrivalList, ExperimentList, HostText, PipelineList, StepList, TextList};
pub use path::PathText;
pub use session::{Experiment, Pipeline, Session};
pub use step::HostStep;
