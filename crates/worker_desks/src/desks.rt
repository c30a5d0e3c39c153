// The desks of a laboratory.

use desk::Desk;
use exp_model::Session;
use lab_kits::Kit;
use rtio_core::Core;
use sched_core::Sched;

/// The desks of a laboratory, and the session that it works on.
#[derive(Drop)]
pub struct Desks {
    /// The scheduler's.
    pub sched: Desk<Sched<Kit>>,
    /// The cores', by pipeline.
    pub cores: Vec<Desk<Core>>,
    /// The sources, the experiments and the budget.
    pub session: Session,
}
