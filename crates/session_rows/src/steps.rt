// The steps of experiments, as a table writes them.

use crate::datasets::{push_flags, push_name, push_value};
use exp_model::HostStep;
use std::alloc::AllocError;

/// Pushes a line for each step of a stage.
pub fn push_steps(told: &mut String, stage: &str, steps: &[HostStep]) -> Result<(), AllocError> {
    for step in steps {
        write!(told, "\n> {stage}: ")?;
        push_step(told, step)?;
    }
    Ok(())
}

fn push_step(told: &mut String, step: &HostStep) -> Result<(), AllocError> {
    match step {
        HostStep::Kernel { name, args } => {
            let args = args.items();
            told.push_str("kernel ")?;
            push_name(told, name.items())?;
            write!(told, " {args:?}")
        }
        HostStep::Pause => told.push_str("pause"),
        HostStep::CheckTermination => told.push_str("check_termination"),
        HostStep::Set {
            name,
            value,
            broadcast,
            persist,
            archive,
        } => {
            told.push_str("set ")?;
            push_name(told, name.bytes())?;
            told.push_str(" ")?;
            push_value(told, value)?;
            push_flags(told, *broadcast, *persist, *archive)
        }
        HostStep::Append { name, value } => {
            told.push_str("append ")?;
            push_name(told, name.bytes())?;
            write!(told, " {value}")
        }
        HostStep::Sum { name, into } => {
            told.push_str("sum ")?;
            push_name(told, name.bytes())?;
            told.push_str(" into ")?;
            push_name(told, into.bytes())
        }
        HostStep::Submit(submission) => write!(told, "{submission:?}"),
    }
}
