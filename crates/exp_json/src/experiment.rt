// Experiments and the texts of their kernels.

ghost use Rattle.limits.specs.Limits.{most_experiments, most_sources, most_steps};
ghost use Rattle.serde_json.specs.View.{view};
ghost use Rattle.json_fields.specs.Answers.{Gives};
ghost use Rattle.json_fields.specs.Lists.{list_of};
ghost use Rattle.exp_json.specs.Experiments.{experiment, source, step_in};

use crate::around::{Around, Stage};
use crate::list::{ReadItem, listed};
use crate::words::source;
use exp_model::{Experiment, ExperimentList, HostText, StepList, TextList};
use json_fields::{Stop, an_object, index, needed, only_known, within_key};
use limits::{MOST_EXPERIMENTS, MOST_SOURCES, MOST_STEPS};
use serde_json::Value;
use std::alloc::Global;

impl ReadItem for HostText {
    ghost use Rattle.exp_json.specs.Experiments.{source};

    ghost reading = { λ around before. source };

    fn read(
        alloc: Global,
        _around: &Around,
        _before: &[HostText],
        value: &Value,
    ) -> Result<HostText, Stop> {
        source(alloc, value)
    }
}

/// The texts of a session.
pub fn sources(alloc: Global, around: &Around, value: &Value) -> Result<TextList, Stop>
    ensures { Gives result (list_of 1 most_sources source (view value.now)) }
{
    Ok(TextList::of(listed(alloc, around, value, 1, MOST_SOURCES)?))
}

// The steps of a stage.
fn steps(
    alloc: Global,
    around: &Around,
    stage: Stage,
    low: usize,
    value: &Value,
) -> Result<StepList, Stop>
    ensures { Gives result (list_of low most_steps (step_in stage around.now) (view value.now)) }
{
    let around = Around { stage, ..*around };
    Ok(StepList::of(listed(alloc, &around, value, low, MOST_STEPS)?))
}

/// An experiment.
pub fn experiment(alloc: Global, around: &Around, value: &Value) -> Result<Experiment, Stop>
    ensures { Gives result (experiment around.now (view value.now)) }
{
    an_object(alloc, value)?;
    only_known(alloc, value, &["source", "prepare", "run", "analyze"])?;
    let given = needed(alloc, value, "source")?;
    let place = within_key(alloc, "source", index(alloc, given, around.sources))?;
    let given = needed(alloc, value, "prepare")?;
    let prepare = within_key(
        alloc,
        "prepare",
        steps(alloc, around, Stage::Prepare, 0, given),
    )?;
    let given = needed(alloc, value, "run")?;
    let run = within_key(alloc, "run", steps(alloc, around, Stage::Run, 1, given))?;
    let given = needed(alloc, value, "analyze")?;
    let analyze = within_key(
        alloc,
        "analyze",
        steps(alloc, around, Stage::Analyze, 0, given),
    )?;
    Ok(Experiment {
        source: place,
        prepare,
        run,
        analyze,
    })
}

impl ReadItem for Experiment {
    ghost use Rattle.exp_json.specs.Experiments.{experiment};

    ghost reading = { λ around before. experiment around };

    fn read(
        alloc: Global,
        around: &Around,
        _before: &[Experiment],
        value: &Value,
    ) -> Result<Experiment, Stop> {
        experiment(alloc, around, value)
    }
}

/// The experiments of a session.
pub fn experiments(alloc: Global, around: &Around, value: &Value) -> Result<ExperimentList, Stop>
    ensures { Gives result (list_of 1 most_experiments (experiment around.now) (view value.now)) }
{
    Ok(ExperimentList::of(listed(alloc, around, value, 1, MOST_EXPERIMENTS)?))
}
