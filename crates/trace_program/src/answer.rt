// What the program answers to the bytes of its source.

ghost use Rattle.std.specs.Prelude.{◌≡◌, ◌≤◌, ◌<◌, ◌^◌, ◌||◌, ℕ, List, length, option_map, IfOk, IsTrue};
ghost use Rattle.limits.specs.Limits.{most_budget};
ghost use Rattle.kern_syntax.specs.TreeOf.{tree_of};
ghost use Rattle.code_forms.specs.Programs.{code_of_program};
ghost use Rattle.kern_accepted.specs.Texts.{IsKernel, IsTextOf};
ghost use Rattle.rtio_core.specs.Entries.{is_config_ok};
ghost use Rattle.sim_report.specs.Pending.{pends};
ghost use Rattle.trace_report.specs.Outputs.{misses};
ghost use Rattle.trace_program.specs.Places.{text_place};
ghost use Rattle.trace_program.specs.Readings.{IsTraceAnswer, IsTraceOf};

use crate::places::{places_of_main, text_place, text_places};
use core_code::Compiled;
use kern_accepted::compile_text;
use kernel_lines::{program_lines, what_asks_has_a_line};
use kernel_places::{Place, RunPlaces};
use sim_program::{Run, finish_of, line_of_end, run_main};
use sim_report::pends;
use sim_words::Options;
use std::alloc::{AllocError, Global};
use top_calls::Answer;
use trace_fates::{TracedOutput, traced_outputs};
use trace_report::{Ended, TextPlace, misses, trace};

/// Runs the kernel that a text is and traces the run, or says why the text is refused.
pub fn answer_to(alloc: Global, options: Options, text: &[u8]) -> Result<Answer, AllocError>
    requires config { IsTrue (is_config_ok options.config) }
    requires units { options.budget ≤ most_budget }
    requires short { length text.now < 2 ^ 31 }
    ensures { IfOk result (λ answer. IsTraceAnswer options text.now answer) }
{
    match compile_text(alloc, text) {
        Ok(compiled) => answer_of_kernel(alloc, &compiled, options),
        Err(end) => Ok(Answer::Refused(line_of_end(alloc, end)?)),
    }
}

// Runs a kernel and traces the run.
fn answer_of_kernel(
    alloc: Global,
    compiled: &Compiled,
    options: Options,
) -> Result<Answer, AllocError>
    requires config { IsTrue (is_config_ok options.config) }
    requires units { options.budget ≤ most_budget }
    requires code { compiled.now.1 ≡ code_of_program (tree_of compiled.now.0) }
    requires kernel { IsKernel (tree_of compiled.now.0) }
    ensures { (text : List ℕ) → IsTextOf text (tree_of compiled.now.0) →
        IfOk result (λ answer. IsTraceAnswer options text answer) }
{
    what_asks_has_a_line();
    let budget = options.budget;
    let horizon = options.config.horizon;
    let lines = program_lines(alloc, compiled.checked())?;
    let run = run_main(alloc, compiled, options)?;
    let places = places_of_main(alloc, compiled.code(), budget, &run, &lines)?;
    trace_of(alloc, &run, &lines, &places, horizon, budget)
}

// Tells of a run by the lines of its code's instructions and the places at which it asked.
fn trace_of(
    alloc: Global,
    run: &Run,
    lines: &[u32],
    places: &RunPlaces,
    horizon: u64,
    budget: u32,
) -> Result<Answer, AllocError>
    ensures { IfOk result (λ answer. IsTraceOf horizon budget run.now lines.now places.now answer) }
{
    let ended = Ended {
        outcome: run.outcome,
        stop: stop_of(lines, places.end),
        horizon,
        budget,
    };
    let asked = text_places(alloc, lines, &places.asked)?;
    let outputs = traced_outputs(alloc, &run.core)?;
    Ok(Answer::Due {
        bytes: trace(alloc, run.core.history(), &asked, &outputs, ended)?,
        finish: finish_of(run.outcome, is_unfinished(run, &outputs)),
    })
}

// Where in the text a run stopped, where its end has a place.
fn stop_of(lines: &[u32], end: Option<Place>) -> Option<TextPlace>
    ensures { result ≡ option_map (text_place lines.now) end }
{
    Some(text_place(lines, end?))
}

// Whether an output is still to be put out, or is missing for another reason that nobody meant.
fn is_unfinished(run: &Run, outputs: &[TracedOutput]) -> bool
    ensures { result ≡ (pends run.now.core || misses outputs.now) }
{
    pends(&run.core) || misses(outputs)
}
