// The program as a function: words and bytes in, bytes and a status out.
ghost use Rattle.std.specs.Prelude.{◌<◌, ◌^◌, length, map, string_bytes, IfOk};
ghost use Rattle.sim_words.specs.Asked.{asked_of};
ghost use Rattle.sim_program.specs.Answers.{command_of, simulator};
ghost use Rattle.top_calls.specs.Calls.{AnswersWords};
ghost use Rattle.top_calls.specs.Sayings.{IsGot, IsSaid};
ghost use Rattle.top_calls.specs.Streams.{stream};

use crate::answer::answer_to;
use kernel_gen::generated_text;
use lab_io::{Sink, Source};
use limits::{MOST_DUMP, MOST_IMAGE, MOST_TEXT};
use sim_words::{Asked, WordsEnd, read_words};
use std::alloc::Global;
use top_calls::{Answer, Stop, read_up_to, tell};

const USAGE: &[u8] =
    b"usage: artiq_sim sim or check or compile or exec or gen or slack or dump or vcd or sat\n";

/// Answers the words. Under `sim` it reads a kernel's text, runs it and writes its report, or with `--gen` runs a generated
/// kernel and writes the summary of its run; under `check` it reads a kernel's text and writes its canonical text; under
/// `compile` it reads one and writes the image of its code, which does what the text means; under `exec` it reads such an
/// image, runs it and writes its report; under `gen` it writes the generated text; under `dump` it reads a kernel's text, runs
/// it and writes what its core did as bytes; under `vcd` it reads such bytes and writes their waveform; under `sat` it reads a
/// kernel's text, runs it, sends what its core put out over a link with credits, and writes what became of each event; under
/// `slack` it reads one and writes whether an output of it can come too late, without a run.
///
/// The status is 0 where all was done; 1 where a text is refused, and 9 where an image or a dump is; 2 where the words aren't
/// accepted; 3 where the source failed, and 4 where a sink did; 5 for want of memory; 6 where the run raised an exception; 7
/// where it used up its units, met the last cycle, or left events that are still to be put out; 8 where the source held too
/// much.
///
/// Under `sim` and `exec` out has got the report of a run of the kernel, or of the image, and under `dump` what its core did: what
/// was put out up to the counter is, by stamps, exactly what the source's timeline submits under the kept replies, less what was
/// overridden, which a later output of its channel and stamp was, and what the log names as sequence error, collision, busy or
/// cleared; and an output underflowed exactly where the counter had reached its cycle, with only earlier ones submitted. Under
/// `slack` it is the line of the verdict; where that is a yes, no output of the kernel's first session underflows on any core of
/// this cost and at least this depth.
pub fn sim_top<S: Source, K: Sink, E: Sink>(
    alloc: Global,
    words: &[String],
    source: &mut S,
    out: &mut K,
    err: &mut E,
) -> u8
    ensures { AnswersWords simulator (asked_of (map string_bytes words.now))
        (stream S.left S.faults source.old source.new)
        (stream K.held K.faults out.old out.new)
        (stream E.held E.faults err.old err.new)
        result }
{
    tell(answer_of(alloc, words, source), USAGE, out, err)
}

// What the program says to its words and to the bytes of its source.
fn answer_of<S: Source>(alloc: Global, words: &[String], source: &mut S) -> Result<Answer, Stop>
    ensures { IsSaid simulator (asked_of (map string_bytes words.now)) (stream S.left S.faults source.old source.new) result }
{
    let asked = match read_words(alloc, words) {
        Ok(asked) => asked,
        Err(WordsEnd::Refused) => return Err(Stop::Usage),
        Err(WordsEnd::Memory) => return Err(Stop::Memory),
    };
    let text = bytes_of(alloc, &asked, source)?;
    Ok(answer_to(alloc, asked, text)?)
}

// The bytes that a command works on: all that its source holds, or the text that it generates.
fn bytes_of<S: Source>(alloc: Global, asked: &Asked, source: &mut S) -> Result<Vec<u8>, Stop>
    ensures got { IsGot (command_of asked.now).origin (stream S.left S.faults source.old source.new) result }
    ensures short { IfOk result (λ bytes. length bytes.items < 2 ^ 31) }
{
    match asked {
        Asked::Sim { .. }
        | Asked::Dump { .. }
        | Asked::Sat { .. }
        | Asked::Slack { .. }
        | Asked::Check
        | Asked::Compile => read_up_to(alloc, source, MOST_TEXT),
        Asked::Exec { .. } => read_up_to(alloc, source, MOST_IMAGE),
        Asked::Vcd => read_up_to(alloc, source, MOST_DUMP),
        Asked::Generated { number, .. } | Asked::Gen { number } => {
            Ok(generated_text(alloc, *number)?)
        }
    }
}
