// The lines of the steps that were reported.

ghost use Rattle.std.specs.Prelude.{◌≡◌, ◌++◌, flat_map, OnOk, string_bytes};
ghost use Rattle.lab_report.specs.Steps.{line_of_act, step_line, word_text};

use sched_core::{SchedAct, SchedEntry, StepWord};
use sim_report::name_of_exception;
use std::alloc::AllocError;

/// Appends the line of each step that was reported.
pub fn write_steps(text: &mut String, history: &[SchedEntry]) -> Result<(), AllocError>
    ensures { OnOk result (string_bytes text.new ≡ string_bytes text.old ++ flat_map step_line history.now) }
{
    for entry in history {
        write_step(text, &entry.act)?;
    }
    Ok(())
}

// Appends the line of a step's report; another act has none.
fn write_step(text: &mut String, act: &SchedAct) -> Result<(), AllocError>
    ensures { OnOk result (string_bytes text.new ≡ string_bytes text.old ++ line_of_act act.now) }
{
    match act {
        SchedAct::Stepped {
            rid,
            pos,
            clock,
            word,
            ..
        } => {
            write!(text, "step {clock} {rid} {pos} ")?;
            write_word(text, *word)?;
            text.push_str("\n")
        }
        _ => Ok(()),
    }
}

// Appends the word for what became of a step.
fn write_word(text: &mut String, word: StepWord) -> Result<(), AllocError>
    ensures { OnOk result (string_bytes text.new ≡ string_bytes text.old ++ word_text word) }
{
    match word {
        StepWord::Ok => text.push_str("ok"),
        StepWord::Failed => text.push_str("failed"),
        StepWord::Raised(exception) => {
            let name = name_of_exception(exception);
            write!(text, "raised {name}")
        }
        StepWord::Budget => text.push_str("budget"),
        StepWord::Horizon => text.push_str("horizon"),
        StepWord::Paused => text.push_str("paused"),
        StepWord::Terminated => text.push_str("terminated"),
        StepWord::Deleted => text.push_str("deleted"),
    }
}
