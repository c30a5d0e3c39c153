// What the program answers to the bytes of a command.
ghost use Rattle.std.specs.Prelude.{◌≡◌, ◌≤◌, ◌<◌, ◌+◌, ◌^◌, ℕ, List, length, IfOk, IsTrue};
ghost use Rattle.limits.specs.Limits.{most_budget, most_cost, most_depth};
ghost use Rattle.kern_syntax.specs.TreeOf.{tree_of};
ghost use Rattle.rtio_core.specs.Entries.{is_config_ok};
ghost use Rattle.sim_report.specs.Ends.{HasEnded};
ghost use Rattle.sim_words.specs.Asked.{IsAccepted};
ghost use Rattle.kern_accepted.specs.Texts.{IsKernelText};
ghost use Rattle.sim_program.specs.Answers.{command_of, link_of, run_of};
ghost use Rattle.sim_program.specs.Readings.{TellsOf};
ghost use Rattle.top_calls.specs.Sayings.{IsAnswerTo};

use crate::finish::finish_of;
use crate::image::{Image, image_of};
use crate::link::lines_of;
use crate::refusal::line_of_end;
use crate::report::{Form, text_of};
use crate::run::{Run, run_image, run_main};
use crate::wave::{Wave, wave_of};
use core_code::Compiled;
use core_image::encode;
use kern_accepted::{accept, compile_text};
use kern_syntax::print;
use sat_rounds::LinkWord;
use sim_report::pends;
use sim_words::{Asked, Options};
use slack_check::{slack, slack_line};
use std::alloc::{AllocError, Global};
use top_calls::{Answer, Finish};

/// Does with a command's bytes what it says, or says why they are refused.
pub fn answer_to(alloc: Global, asked: Asked, text: Vec<u8>) -> Result<Answer, AllocError>
    requires accepted { IsAccepted asked }
    requires short { length text.items < 2 ^ 31 }
    ensures { IfOk result (λ answer. IsAnswerTo (command_of asked).duty text.items answer) }
{
    match asked {
        Asked::Sim { options, dma } => answer_by_run(alloc, &text, options, Form::Report { dma }),
        Asked::Generated { options, .. } => answer_by_run(alloc, &text, options, Form::Summary),
        Asked::Check => answer_by_text(alloc, &text),
        Asked::Compile => answer_by_image(alloc, &text),
        Asked::Exec { options, dma } => answer_by_code(alloc, &text, options, dma),
        Asked::Dump { options } => answer_by_run(alloc, &text, options, Form::Bytes),
        Asked::Vcd => answer_by_dump(alloc, &text),
        Asked::Sat { options, word } => answer_by_link(alloc, &text, options, &word),
        Asked::Slack { cost, depth } => answer_by_slack(alloc, &text, cost, depth),
        Asked::Gen { .. } => Ok(Answer::Due {
            bytes: text,
            finish: Finish::Whole,
        }),
    }
}

// Runs a kernel and tells of its run.
fn answer_by_run(
    alloc: Global,
    text: &[u8],
    options: Options,
    form: Form,
) -> Result<Answer, AllocError>
    requires config { IsTrue (is_config_ok options.config) }
    requires units { options.budget ≤ most_budget }
    requires short { length text.now < 2 ^ 31 }
    ensures { IfOk result (λ answer. IsAnswerTo (run_of options form) text.now answer) }
{
    match compile_text(alloc, text) {
        Ok(compiled) => answer_of_kernel(alloc, &compiled, options, form),
        Err(end) => Ok(Answer::Refused(line_of_end(alloc, end)?)),
    }
}

// Runs the kernel that a text is and tells of its run.
fn answer_of_kernel(
    alloc: Global,
    compiled: &Compiled,
    options: Options,
    form: Form,
) -> Result<Answer, AllocError>
    requires config { IsTrue (is_config_ok options.config) }
    requires units { options.budget ≤ most_budget }
    ensures { (text : List ℕ) → IsKernelText text (tree_of compiled.now.0)
        → IfOk result (λ answer. IsAnswerTo (run_of options form) text answer) }
{
    let budget = options.budget;
    let size = encode(alloc, compiled.code().code())?.len() as u64;
    let run = run_main(alloc, compiled, options)?;
    answer_of_run(alloc, form, &run, budget, size)
}

// Runs a kernel and sends what its core put out over a link.
fn answer_by_link(
    alloc: Global,
    text: &[u8],
    options: Options,
    word: &LinkWord,
) -> Result<Answer, AllocError>
    requires config { IsTrue (is_config_ok options.config) }
    requires units { options.budget ≤ most_budget }
    requires short { length text.now < 2 ^ 31 }
    ensures { IfOk result (λ answer. IsAnswerTo (link_of options word.now) text.now answer) }
{
    match compile_text(alloc, text) {
        Ok(compiled) => answer_of_link(alloc, &compiled, options, word),
        Err(end) => Ok(Answer::Refused(line_of_end(alloc, end)?)),
    }
}

// Runs the kernel that a text is and sends what its core put out over a link.
fn answer_of_link(
    alloc: Global,
    compiled: &Compiled,
    options: Options,
    word: &LinkWord,
) -> Result<Answer, AllocError>
    requires config { IsTrue (is_config_ok options.config) }
    requires units { options.budget ≤ most_budget }
    ensures { (text : List ℕ) → IsKernelText text (tree_of compiled.now.0)
        → IfOk result (λ answer. IsAnswerTo (link_of options word.now) text answer) }
{
    let lanes = options.config.lanes;
    let depth = options.config.depth;
    // The code does what the program does.
    let _code = compiled.code();
    let run = run_main(alloc, compiled, options)?;
    let bytes = lines_of(alloc, &run, lanes, depth, word)?;
    Ok(Answer::Due {
        bytes,
        finish: finish_of(run.outcome, pends(&run.core)),
    })
}

// Writes the canonical text of a kernel.
fn answer_by_text(alloc: Global, text: &[u8]) -> Result<Answer, AllocError>
    requires { length text.now < 2 ^ 31 }
    ensures { IfOk result (λ answer. IsAnswerTo (command_of Asked.Check).duty text.now answer) }
{
    match accept(alloc, text) {
        Ok(checked) => Ok(Answer::Due {
            bytes: print(alloc, checked.program())?,
            finish: Finish::Whole,
        }),
        Err(end) => Ok(Answer::Refused(line_of_end(alloc, end)?)),
    }
}

// Tells whether an output of a kernel can come too late.
fn answer_by_slack(alloc: Global, text: &[u8], cost: u64, depth: u32) -> Result<Answer, AllocError>
    requires cost { cost ≤ most_cost }
    requires depth { (1 ≤ depth) × (depth ≤ most_depth) }
    requires short { length text.now < 2 ^ 31 }
    ensures { IfOk result (λ answer. IsAnswerTo (command_of (Asked.Slack cost depth)).duty text.now answer) }
{
    match accept(alloc, text) {
        Ok(checked) => {
            let verdict = slack(alloc, &checked, cost, depth)?;
            Ok(Answer::Due {
                bytes: slack_line(alloc, verdict)?,
                finish: Finish::Whole,
            })
        }
        Err(end) => Ok(Answer::Refused(line_of_end(alloc, end)?)),
    }
}

// Writes the image of a kernel's code.
fn answer_by_image(alloc: Global, text: &[u8]) -> Result<Answer, AllocError>
    requires { length text.now < 2 ^ 31 }
    ensures { IfOk result (λ answer. IsAnswerTo (command_of Asked.Compile).duty text.now answer) }
{
    match compile_text(alloc, text) {
        Ok(compiled) => Ok(Answer::Due {
            bytes: encode(alloc, compiled.code().code())?,
            finish: Finish::Whole,
        }),
        Err(end) => Ok(Answer::Refused(line_of_end(alloc, end)?)),
    }
}

// Runs the code of an image and reports its run.
fn answer_by_code(
    alloc: Global,
    bytes: &[u8],
    options: Options,
    dma: bool,
) -> Result<Answer, AllocError>
    requires config { IsTrue (is_config_ok options.config) }
    requires units { options.budget ≤ most_budget }
    ensures { IfOk result (λ answer. IsAnswerTo (command_of (Asked.Exec options dma)).duty bytes.now answer) }
{
    match image_of(alloc, bytes)? {
        Image::Refused(line) => Ok(Answer::Bad(line)),
        Image::Accepted(code) => {
            let budget = options.budget;
            let size = bytes.len() as u64;
            let run = run_image(alloc, &code, options)?;
            answer_of_run(alloc, Form::Report { dma }, &run, budget, size)
        }
    }
}

// Writes the waveform of a dump.
fn answer_by_dump(alloc: Global, bytes: &[u8]) -> Result<Answer, AllocError>
    ensures { IfOk result (λ answer. IsAnswerTo (command_of Asked.Vcd).duty bytes.now answer) }
{
    match wave_of(alloc, bytes)? {
        Wave::Refused(line) => Ok(Answer::Bad(line)),
        Wave::Drawn(text) => Ok(Answer::Due {
            bytes: text,
            finish: Finish::Whole,
        }),
    }
}

// Tells of a run.
fn answer_of_run(
    alloc: Global,
    form: Form,
    run: &Run,
    budget: u32,
    size: u64,
) -> Result<Answer, AllocError>
    requires ended { HasEnded run.now.core.history }
    requires few { length run.now.core.history ≤ most_budget + 2 }
    ensures { IfOk result (λ answer. TellsOf form run.now budget size answer) }
{
    Ok(Answer::Due {
        bytes: text_of(alloc, form, run, budget, size)?,
        finish: finish_of(run.outcome, pends(&run.core)),
    })
}
