// The steps of experiments.

ghost use Rattle.std.specs.Prelude.{◌≡◌};
ghost use Rattle.serde_json.specs.View.{view};
ghost use Rattle.json_fields.specs.Answers.{Gives};
ghost use Rattle.json_fields.specs.Objects.{first_there, only_known};
ghost use Rattle.exp_json.specs.declared.around.Around.{Around};
ghost use Rattle.exp_json.specs.declared.step.StepForm.TheVariants as F;
ghost use Rattle.exp_json.specs.Steps.{dataset_value, form_key, in_stage, of_run_alone, step, step_forms, step_table};

use crate::around::{Around, Stage};
use crate::list::{ReadItem, numbers};
use crate::submission::submission;
use crate::words::{identifier, name};
use exp_model::HostStep;
use json_fields::{
    FieldKind, Part, Path, Stop, an_object, any_number, fault_here, is_there, needed, only_known,
    truth_or, within_key, yes,
};
use limits::{MOST_ARGUMENTS, MOST_NUMBERS};
use rtio_types::Value as Dataset;
use serde_json::Value;
use std::alloc::Global;

/// The form of a step.
#[derive(Clone, Copy, Debug, PartialEq, Eq)]
pub enum StepForm {
    Kernel,
    Pause,
    CheckTermination,
    Set,
    Append,
    Sum,
    Submit,
}

impl StepForm {
    // The key that chooses the form.
    fn key(self) -> &'static str
        ensures { result.now ≡ form_key self }
    {
        match self {
            StepForm::Kernel => "kernel",
            StepForm::Pause => "pause",
            StepForm::CheckTermination => "check_termination",
            StepForm::Set => "set",
            StepForm::Append => "append",
            StepForm::Sum => "sum",
            StepForm::Submit => "submit",
        }
    }

    // It stands in the run alone.
    fn is_of_run_alone(self) -> bool
        ensures { result ≡ of_run_alone self }
    {
        match self {
            StepForm::Kernel | StepForm::Pause | StepForm::CheckTermination | StepForm::Submit =>
                true,
            StepForm::Set | StepForm::Append | StepForm::Sum => false,
        }
    }
}

// The form of a step: that of the first of the keys that is there.
fn form_of(value: &Value) -> Option<StepForm>
    ensures { result ≡ first_there form_key step_forms (view value.now) }
{
    if is_there(value, "kernel") {
        Some(StepForm::Kernel)
    } else if is_there(value, "pause") {
        Some(StepForm::Pause)
    } else if is_there(value, "check_termination") {
        Some(StepForm::CheckTermination)
    } else if is_there(value, "set") {
        Some(StepForm::Set)
    } else if is_there(value, "append") {
        Some(StepForm::Append)
    } else if is_there(value, "sum") {
        Some(StepForm::Sum)
    } else if is_there(value, "submit") {
        Some(StepForm::Submit)
    } else {
        None
    }
}

// A form has to be one of the stage.
fn in_stage(alloc: Global, stage: Stage, form: StepForm) -> Result<(), Stop>
    ensures { Gives result (in_stage stage form) }
{
    match stage {
        Stage::Run => Ok(()),
        Stage::Prepare | Stage::Analyze => {
            if !form.is_of_run_alone() {
                return Ok(());
            }
            Err(Stop::Fault {
                path: Path::new(alloc).behind(Part::key(alloc, form.key())?)?,
                kind: FieldKind::Unknown,
            })
        }
    }
}

// All keys have to be those of the form.
fn only_step_keys(alloc: Global, value: &Value, form: StepForm) -> Result<(), Stop>
    ensures { (around : Around) → Gives result (only_known (step_table around form).keys (view value.now)) }
{
    match form {
        StepForm::Kernel => only_known(alloc, value, &["kernel", "args"]),
        StepForm::Pause => only_known(alloc, value, &["pause"]),
        StepForm::CheckTermination => only_known(alloc, value, &["check_termination"]),
        StepForm::Set => only_known(
            alloc,
            value,
            &["set", "value", "broadcast", "persist", "archive"],
        ),
        StepForm::Append => only_known(alloc, value, &["append", "value"]),
        StepForm::Sum => only_known(alloc, value, &["sum", "into"]),
        StepForm::Submit => only_known(alloc, value, &["submit"]),
    }
}

// A number or a list of numbers.
fn dataset(alloc: Global, around: &Around, value: &Value) -> Result<Dataset, Stop>
    ensures { Gives result (dataset_value (view value.now)) }
{
    if value.is_array() {
        Ok(Dataset::List(numbers(alloc, around, value, MOST_NUMBERS)?))
    } else {
        Ok(Dataset::Int(any_number(alloc, value)?))
    }
}

fn kernel(alloc: Global, around: &Around, value: &Value) -> Result<HostStep, Stop>
    ensures { Gives result ((step_table around.now F.Kernel).fields (view value.now)) }
{
    let given = needed(alloc, value, "kernel")?;
    let name = within_key(alloc, "kernel", identifier(alloc, given))?;
    let given = needed(alloc, value, "args")?;
    let args = within_key(alloc, "args", numbers(alloc, around, given, MOST_ARGUMENTS))?;
    Ok(HostStep::Kernel { name, args })
}

fn set(alloc: Global, around: &Around, value: &Value) -> Result<HostStep, Stop>
    ensures { Gives result ((step_table around.now F.Set).fields (view value.now)) }
{
    let given = needed(alloc, value, "set")?;
    let key = within_key(alloc, "set", name(alloc, given))?;
    let given = needed(alloc, value, "value")?;
    let held = within_key(alloc, "value", dataset(alloc, around, given))?;
    let broadcast = truth_or(alloc, value, "broadcast", false)?;
    let persist = truth_or(alloc, value, "persist", false)?;
    let archive = truth_or(alloc, value, "archive", true)?;
    Ok(HostStep::Set {
        name: key,
        value: held,
        broadcast,
        persist,
        archive,
    })
}

fn append(alloc: Global, around: &Around, value: &Value) -> Result<HostStep, Stop>
    ensures { Gives result ((step_table around.now F.Append).fields (view value.now)) }
{
    let given = needed(alloc, value, "append")?;
    let key = within_key(alloc, "append", name(alloc, given))?;
    let given = needed(alloc, value, "value")?;
    let item = within_key(alloc, "value", any_number(alloc, given))?;
    Ok(HostStep::Append {
        name: key,
        value: item,
    })
}

fn sum(alloc: Global, around: &Around, value: &Value) -> Result<HostStep, Stop>
    ensures { Gives result ((step_table around.now F.Sum).fields (view value.now)) }
{
    let given = needed(alloc, value, "sum")?;
    let key = within_key(alloc, "sum", name(alloc, given))?;
    let given = needed(alloc, value, "into")?;
    let into = within_key(alloc, "into", name(alloc, given))?;
    Ok(HostStep::Sum { name: key, into })
}

// The fields of a form.
fn fields_of(
    alloc: Global,
    around: &Around,
    form: StepForm,
    value: &Value,
) -> Result<HostStep, Stop>
    ensures { Gives result ((step_table around.now form).fields (view value.now)) }
{
    match form {
        StepForm::Kernel => kernel(alloc, around, value),
        StepForm::Pause => {
            let given = needed(alloc, value, "pause")?;
            within_key(alloc, "pause", yes(alloc, given))?;
            Ok(HostStep::Pause)
        }
        StepForm::CheckTermination => {
            let given = needed(alloc, value, "check_termination")?;
            within_key(alloc, "check_termination", yes(alloc, given))?;
            Ok(HostStep::CheckTermination)
        }
        StepForm::Set => set(alloc, around, value),
        StepForm::Append => append(alloc, around, value),
        StepForm::Sum => sum(alloc, around, value),
        StepForm::Submit => {
            let given = needed(alloc, value, "submit")?;
            let order = within_key(alloc, "submit", submission(alloc, around, given))?;
            Ok(HostStep::Submit(order))
        }
    }
}

/// A step: an object, its form, the stage, its keys, and then its fields.
pub fn step(alloc: Global, around: &Around, value: &Value) -> Result<HostStep, Stop>
    ensures { Gives result (step around.now (view value.now)) }
{
    an_object(alloc, value)?;
    let Some(form) = form_of(value) else {
        return Err(fault_here(alloc, FieldKind::Missing));
    };
    in_stage(alloc, around.stage, form)?;
    only_step_keys(alloc, value, form)?;
    fields_of(alloc, around, form, value)
}

impl ReadItem for HostStep {
    ghost use Rattle.exp_json.specs.Steps.{step};

    ghost reading = { λ around before. step around };

    fn read(
        alloc: Global,
        around: &Around,
        _before: &[HostStep],
        value: &Value,
    ) -> Result<HostStep, Stop> {
        step(alloc, around, value)
    }
}
