// What a scheduler writes down.

ghost use Rattle.std.specs.Prelude.{◌≡◌};

use rtio_types::{Exc, Name, Outcome, Value};
use std::marker::Model;

/// A job, by its run.
#[derive(Clone, Copy, Debug, PartialEq, Eq)]
pub enum JobName {
    /// To compile the run's source, and to do its prepare steps.
    Prepare { rid: u64 },
    /// To do a step of its run stage.
    Step { rid: u64, pos: u32 },
    /// To do its analyze steps.
    Analyze { rid: u64 },
}

/// A job that was taken and not yet reported, and the chair that took it.
#[derive(Clone, Copy, Debug, PartialEq, Eq)]
pub struct Flight {
    /// Who.
    pub chair: u32,
    /// What.
    pub job: JobName,
}

/// A dataset that a kernel set.
#[derive(Debug, Drop)]
pub struct DataSet {
    /// Its name.
    pub name: Name,
    /// What it was set to.
    pub value: Value,
}

/// A list of datasets that were set, which contracts see as that list.
#[derive(Debug, Drop)]
pub struct SetList {
    sets: Vec<DataSet>,
}

impl Model for SetList {
    ghost use Rattle.std.specs.Prelude.{List};
    ghost use Rattle.sched_state.specs.declared.entry.DataSet.{DataSet};

    ghost Value = { List DataSet };

    ghost view = { λ l. l.sets.items };
}

impl SetList {
    /// The list of these.
    pub fn of(items: Vec<DataSet>) -> SetList
        ensures { result ≡ items.items }
    {
        SetList { sets: items }
    }

    /// They, in order.
    pub fn items(&self) -> &[DataSet]
        ensures { result.now ≡ self.now }
    {
        self.sets.as_slice()
    }
}

/// What a kernel step came to.
#[derive(Debug, Drop)]
pub struct KernelResult {
    /// How it ended.
    pub outcome: Outcome,
    /// The datasets that it set, in order.
    pub sets: SetList,
    /// How many instructions it took; the scheduler only keeps it.
    pub steps: u64,
}

/// What became of a step.
#[derive(Clone, Copy, Debug, PartialEq, Eq)]
pub enum StepWord {
    /// It was done.
    Ok,
    /// It couldn't be done, and the run failed.
    Failed,
    /// The kernel raised an exception.
    Raised(Exc),
    /// The kernel used up its units.
    Budget,
    /// The kernel waited in vain up to the last cycle.
    Horizon,
    /// The run lends the core to one of higher priority.
    Paused,
    /// The run ended by an order to terminate.
    Terminated,
    /// The run had been deleted.
    Deleted,
}

/// What happened to a scheduler.
#[derive(Debug, Drop)]
pub enum SchedAct {
    /// A job was taken.
    Took(JobName),
    /// A run's preparation was reported.
    Prepared {
        rid: u64,
    },
    /// A step was reported; `clock` is that of the lab after it.
    Stepped {
        rid: u64,
        pos: u32,
        pipeline: u32,
        clock: u64,
        result: Option<KernelResult>,
        word: StepWord,
    },
    /// A run's analysis was reported.
    Analyzed {
        rid: u64,
    },
    /// A run's source was reported to be refused.
    SourceRefused {
        rid: u64,
    },
    /// The clock moved on to this moment, since nothing was left to do before it.
    Jumped {
        clock: u64,
    },
    /// The chair has no memory left, and no more jobs are given out.
    Halted,
}

/// An act, and the number of the chair that did it.
#[derive(Debug, Drop)]
pub struct SchedEntry {
    /// Who.
    pub chair: u32,
    /// What.
    pub act: SchedAct,
}
