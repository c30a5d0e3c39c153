// The members of a crew, and room for what they leave.

use desk::Chair;
use lab_kits::Kit;
use lab_workers::{WorkEnd, Worker};
use rtio_core::Core;
use sched_core::Sched;

/// A worker of a crew, and how it ended, once it has.
#[derive(Drop)]
pub(crate) struct Member {
    pub(crate) worker: Worker,
    pub(crate) end: Option<WorkEnd>,
}

/// Room for the chairs and the cores that are gathered when all have ended.
#[derive(Drop)]
pub(crate) struct Room {
    /// For the chairs at the scheduler's desk.
    pub(crate) scheds: Vec<Chair<Sched<Kit>>>,
    /// For the chairs at the cores' desks, by worker.
    pub(crate) rows: Vec<Vec<Chair<Core>>>,
    /// For the same, by desk.
    pub(crate) columns: Vec<Vec<Chair<Core>>>,
    /// For the cores.
    pub(crate) cores: Vec<Core>,
}
