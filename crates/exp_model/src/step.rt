// The steps of an experiment.

ghost use Rattle.std.specs.Prelude.{◌≡◌, IfOk};

use crate::{HostText, Submission};
use rtio_types::{IntList, Name, Value};
use std::alloc::{AllocError, Global};

/// One step of an experiment. `Kernel`, `Pause`, `CheckTermination` and `Submit` stand in its run alone, the others in its
/// preparation and analysis too.
#[derive(Debug, Drop)]
pub enum HostStep {
    /// Runs a function of the experiment's text on the core, with arguments.
    Kernel {
        name: HostText,
        args: IntList,
    },
    /// Gives way to a run that is higher, or ends where the run was asked to.
    Pause,
    /// Ends where the run was asked to.
    CheckTermination,
    /// Sets a dataset, with its flags.
    Set {
        name: Name,
        value: Value,
        broadcast: bool,
        persist: bool,
        archive: bool,
    },
    /// Appends an item to a dataset.
    Append {
        name: Name,
        value: i64,
    },
    /// Sets a dataset to the sum of another.
    Sum {
        name: Name,
        into: Name,
    },
    /// Submits an experiment.
    Submit(Submission),
}

impl HostStep {
    /// An equal step; the only error is want of memory.
    pub fn copy(&self, alloc: Global) -> Result<HostStep, AllocError>
        ensures { IfOk result (λ copy. copy ≡ self.now) }
    {
        Ok(match self {
            HostStep::Kernel { name, args } => HostStep::Kernel {
                name: name.copy(alloc)?,
                args: args.copy(alloc)?,
            },
            HostStep::Pause => HostStep::Pause,
            HostStep::CheckTermination => HostStep::CheckTermination,
            HostStep::Set {
                name,
                value,
                broadcast,
                persist,
                archive,
            } => HostStep::Set {
                name: *name,
                value: value.copy(alloc)?,
                broadcast: *broadcast,
                persist: *persist,
                archive: *archive,
            },
            HostStep::Append { name, value } => HostStep::Append {
                name: *name,
                value: *value,
            },
            HostStep::Sum { name, into } => HostStep::Sum {
                name: *name,
                into: *into,
            },
            HostStep::Submit(submission) => HostStep::Submit(*submission),
        })
    }
}
