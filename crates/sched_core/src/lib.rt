//! The scheduler of a laboratory: which job of which run is due, and what each report changes, as one value with a lawful
//! history. Statuses, priorities, due dates, flushing and pauses are as in the ARTIQ manual's management system; the lab clock
//! and the history are this project's own.
#![tactic(auto)]

mod ahead;
mod answer;
mod booking;
mod offer;
mod payload;
mod sched;

pub use answer::{Job, Next, Refused, RefusedRid, Why};
pub use payload::Payload;
pub use sched::Sched;
pub use sched_state::{
    DataSet, Flight, JobName, KernelResult, SchedAct, SchedEntry, SetList, StepWord,
};
