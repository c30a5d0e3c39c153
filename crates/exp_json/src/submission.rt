// Submissions.

ghost use Rattle.serde_json.specs.View.{view};
ghost use Rattle.json_fields.specs.Answers.{Gives};
ghost use Rattle.exp_json.specs.Steps.{submission};

use crate::around::Around;
use exp_model::Submission;
use json_fields::{
    Stop, an_object, count_or, index, needed, number_or, only_known, truth_or, within_key,
};
use limits::{LAST_CLOCK, MOST_PRIORITY};
use serde_json::Value;
use std::alloc::Global;

/// A submission.
pub fn submission(alloc: Global, around: &Around, value: &Value) -> Result<Submission, Stop>
    ensures { Gives result (submission around.now (view value.now)) }
{
    an_object(alloc, value)?;
    only_known(
        alloc,
        value,
        &["experiment", "pipeline", "priority", "due", "flush"],
    )?;
    let given = needed(alloc, value, "experiment")?;
    let experiment = within_key(alloc, "experiment", index(alloc, given, around.experiments))?;
    let given = needed(alloc, value, "pipeline")?;
    let pipeline = within_key(alloc, "pipeline", index(alloc, given, around.pipelines))?;
    let priority = number_or(alloc, value, "priority", 0, -MOST_PRIORITY, MOST_PRIORITY)?;
    let due = count_or(alloc, value, "due", 0, 0, LAST_CLOCK)?;
    let flush = truth_or(alloc, value, "flush", false)?;
    Ok(Submission {
        experiment,
        pipeline,
        priority,
        due,
        flush,
    })
}
