// Runs of a kernel's functions: what they mean, and what their code does.

use crate::running::{Begin, begin_of, tell_run};
use crate::telling::tell;
use crate::texts::types_of;
use core_code::{CodeEnd, compile};
use kern_types::Checked;
use rtio_types::Reply;
use std::alloc::{AllocError, Global};
use table_rows::push_answer;
use timeline_meaning::{MeantOutcome, meaning};

/// Pushes what a run of a function asks under these replies and how it ends, by its meaning, and what its code does where that is
/// something else.
pub fn push_kernel_run(
    alloc: Global,
    told: &mut String,
    text: &[u8],
    words: &str,
    replies: &[Reply],
) -> Result<(), AllocError> {
    let Some(Ok(checked)) = types_of(alloc, text) else {
        return push_answer(told, "no types");
    };
    let (name, rest) = words.split_once(' ').unwrap_or((words, ""));
    let Some(function) = checked.function(name.as_bytes()) else {
        return push_answer(told, "no function");
    };
    let begin = begin_of(alloc, function, rest)?;
    let meant = meaning_told(alloc, &checked, &begin, replies)?;
    push_answer(told, meant.as_str())?;
    let done = code_told(alloc, checked, &begin, replies)?;
    if done.as_str() == meant.as_str() {
        return Ok(());
    }
    push_answer(told, done.as_str())
}

// What is said of the meaning of a run.
fn meaning_told(
    alloc: Global,
    checked: &Checked,
    begin: &Begin,
    replies: &[Reply],
) -> Result<String, AllocError> {
    let meant = meaning(
        alloc,
        checked,
        begin.function,
        &begin.args,
        begin.cursor,
        begin.units,
        replies,
    )?;
    let mut text = String::new(alloc);
    for request in &meant.requests {
        tell(&mut text, request)?;
    }
    match meant.outcome {
        MeantOutcome::Raised(exception) => write!(text, "{exception:?}")?,
        outcome => write!(text, "{outcome:?}")?,
    }
    write!(text, ", cursor {}, units {}", meant.cursor, meant.units)?;
    Ok(text)
}

// What is said of a run of the code.
fn code_told(
    alloc: Global,
    checked: Checked,
    begin: &Begin,
    replies: &[Reply],
) -> Result<String, AllocError> {
    let mut text = String::new(alloc);
    match compile(alloc, checked) {
        Ok(compiled) => {
            if tell_run(alloc, &mut text, compiled.code(), begin, replies)?.is_none() {
                text.push_str("no beginning")?;
            }
        }
        Err(CodeEnd::TooLarge { nodes }) => write!(text, "code {nodes}")?,
        Err(CodeEnd::Memory) => return Err(AllocError),
    }
    Ok(text)
}

/// Pushes whether a turn of the text's loops takes at least 1 and at most so many instructions: the text goes on behind the lines
/// `def main():` and `n = 2`, and with `n = 52` it has 50 turns more.
pub fn push_turns(
    alloc: Global,
    told: &mut String,
    text: &[u8],
    most: &str,
) -> Result<(), AllocError> {
    let (Some(few), Some(many)) = (steps_of(alloc, text, "2")?, steps_of(alloc, text, "52")?) else {
        return push_answer(told, "no steps");
    };
    let more = many.saturating_sub(few);
    let most = most.parse::<u64>().unwrap_or(0).saturating_mul(50);
    let is_within = more >= 50 && more <= most;
    push_answer(told, if is_within { "within" } else { "beyond" })
}

// How many instructions `main` takes where `n` is so much at first; None where it has no code.
fn steps_of(alloc: Global, body: &[u8], n: &str) -> Result<Option<u64>, AllocError> {
    let mut text = Vec::from_slice(alloc, b"def main():\n    n = ")?;
    text.extend_from_slice(n.as_bytes())?;
    text.push(b'\n')?;
    text.extend_from_slice(body)?;
    let Some(Ok(checked)) = types_of(alloc, &text) else {
        return Ok(None);
    };
    let Some(function) = checked.function(b"main") else {
        return Ok(None);
    };
    let begin = begin_of(alloc, function, "from 0 with 100")?;
    let Ok(compiled) = compile(alloc, checked) else {
        return Ok(None);
    };
    tell_run(alloc, &mut String::new(alloc), compiled.code(), &begin, &[])
}
