// Runs of code under scripted replies.

ghost use Rattle.std.specs.Prelude.{◌≡◌, false, IfSome};
ghost use Rattle.core_cpu.specs.Moments.{is_asking};

use crate::telling::tell;
use crate::texts::numbers_of;
use core_cpu::{Cpu, Stop};
use core_image::{BadCode, ImageEnd, Verified, decode, encode, verify};
use rtio_types::{Outcome, Reply, fits, well_formed};
use std::alloc::{AllocError, Global};
use table_rows::{push_answer, push_output};

const MOST_BYTES: usize = 1_000_000;

/// Pushes what an image says, or the place of its first wrong field.
pub fn push_code(alloc: Global, told: &mut String, image: &[u8]) -> Result<(), AllocError> {
    if image.len() >= MOST_BYTES {
        return push_answer(told, "too long");
    }
    match decode(alloc, image) {
        Ok(code) => {
            let main = code.main;
            for name in code.names.items() {
                write!(told, "\n> {:?}", name.bytes())?;
            }
            for function in code.functions.items() {
                write!(told, "\n> {function:?}")?;
            }
            for line in code.lines.items() {
                let (mark, instr) = (line.mark, line.instr);
                let (height, tries, rec) = (mark.height, mark.tries, mark.rec);
                write!(told, "\n> {height} {tries} {rec} {instr:?}")?;
            }
            write!(told, "\n= main {main}")
        }
        Err(ImageEnd::Fault { offset }) => write!(told, "\n= fault {offset}"),
        Err(ImageEnd::Memory) => Err(AllocError),
    }
}

/// Pushes the image of the code of an image.
pub fn push_image(alloc: Global, told: &mut String, image: &[u8]) -> Result<(), AllocError> {
    if image.len() >= MOST_BYTES {
        return push_answer(told, "too long");
    }
    let Ok(code) = decode(alloc, image) else {
        return push_answer(told, "no image");
    };
    let again = encode(alloc, &code)?;
    push_output(told, '>', "", &again)
}

/// Pushes whether the code of an image is accepted, or its least bad place.
pub fn push_verdict(alloc: Global, told: &mut String, image: &[u8]) -> Result<(), AllocError> {
    if image.len() >= MOST_BYTES {
        return push_answer(told, "too long");
    }
    let Ok(code) = decode(alloc, image) else {
        return push_answer(told, "no image");
    };
    match verify(code) {
        Ok(_) => push_answer(told, "accepted"),
        Err(BadCode { place }) => write!(told, "\n= bad {place}"),
    }
}

/// How a function is begun.
#[derive(Drop)]
pub struct Begin {
    pub function: u32,
    pub args: Vec<i64>,
    /// In mu.
    pub cursor: i64,
    pub units: u32,
}

/// The beginning of a function that words name, `ARGUMENT.. from CURSOR with UNITS`; without such words at cursor 40 with 10 units.
pub fn begin_of(alloc: Global, function: u32, words: &str) -> Result<Begin, AllocError> {
    let (args, rest) = words.split_once("from ").unwrap_or((words, "40 with 10"));
    let (cursor, units) = rest.split_once(" with ").unwrap_or((rest, "10"));
    Ok(Begin {
        function,
        args: numbers_of(alloc, args)?,
        cursor: cursor.parse().unwrap_or(0),
        units: units.parse().unwrap_or(0),
    })
}

/// Pushes what a run of an image's code asks under these replies and how it ends, with its cursor, units and count.
pub fn push_run(
    alloc: Global,
    told: &mut String,
    image: &[u8],
    words: &str,
    replies: &[Reply],
) -> Result<(), AllocError> {
    let Some(code) = accepted(alloc, image) else {
        return push_answer(told, "no code");
    };
    let (function, rest) = words.split_once(' ').unwrap_or((words, ""));
    let begin = begin_of(alloc, function.parse().unwrap_or(0), rest)?;
    told.push_str("\n= ")?;
    match tell_run(alloc, told, &code, &begin, replies)? {
        Some(steps) => write!(told, ", steps {steps}"),
        None => told.push_str("no beginning"),
    }
}

/// Tells what a run of code asks under these replies and how it ends, with its cursor and units. Gives how many instructions it
/// took; None where it can't begin.
pub fn tell_run(
    alloc: Global,
    text: &mut String,
    code: &Verified,
    begin: &Begin,
    replies: &[Reply],
) -> Result<Option<u64>, AllocError> {
    let Some(mut cpu) = begun(alloc, code, begin) else {
        return Ok(None);
    };
    if !answer_all(alloc, &mut cpu, replies, text)? {
        text.push_str("Unanswered")?;
    }
    let (cursor, units) = (cpu.cursor(), cpu.units());
    write!(text, ", cursor {cursor}, units {units}")?;
    Ok(Some(cpu.steps()))
}

// The code of an image that is accepted.
fn accepted(alloc: Global, image: &[u8]) -> Option<Verified> {
    if image.len() >= MOST_BYTES {
        return None;
    }
    verify(decode(alloc, image).ok()?).ok()
}

// A CPU that has yet to begin a run.
fn begun<'a>(alloc: Global, code: &'a Verified, begin: &Begin) -> Option<Cpu<'a>>
    ensures { IfSome result (λ cpu. is_asking cpu.phase ≡ false) }
{
    let functions = code.code().functions.items();
    let index = begin.function as usize;
    if index >= functions.len() || begin.args.len() != functions[index].params as usize {
        return None;
    }
    Cpu::boot(
        alloc,
        code,
        begin.function,
        &begin.args,
        begin.cursor,
        begin.units,
    )
    .ok()
}

// Answers what the CPU asks as long as there are replies, and tells it. Gives whether the run has ended, and tells how.
fn answer_all(
    alloc: Global,
    cpu: &mut Cpu,
    replies: &[Reply],
    text: &mut String,
) -> Result<bool, AllocError>
    requires { is_asking cpu.old.phase ≡ false }
{
    for reply in replies {
        match cpu.advance(alloc)? {
            Stop::Ask(request) => {
                tell(text, &request)?;
                if !well_formed(&request) || !fits(&request, reply) {
                    return Ok(false);
                }
                cpu.reply(reply.copy(alloc)?);
            }
            Stop::Ended(outcome) => {
                tell_outcome(text, outcome)?;
                return Ok(true);
            }
        }
    }
    match cpu.advance(alloc)? {
        Stop::Ask(request) => {
            tell(text, &request)?;
            Ok(false)
        }
        Stop::Ended(outcome) => {
            tell_outcome(text, outcome)?;
            Ok(true)
        }
    }
}

fn tell_outcome(text: &mut String, outcome: Outcome) -> Result<(), AllocError> {
    match outcome {
        Outcome::Raised(exception) => write!(text, "{exception:?}"),
        _ => write!(text, "{outcome:?}"),
    }
}
