// The program as a function: words and bytes in, bytes and a status out.

ghost use Rattle.std.specs.Prelude.{map, string_bytes};
ghost use Rattle.top_calls.specs.Calls.{AnswersWords};
ghost use Rattle.top_calls.specs.Sayings.{IsSaid};
ghost use Rattle.top_calls.specs.Streams.{stream};
ghost use Rattle.trace_program.specs.Answers.{tracer};
ghost use Rattle.trace_program.specs.Words.{options_asked};

use crate::answer::answer_to;
use crate::words::read_options;
use lab_io::{Sink, Source};
use limits::MOST_TEXT;
use sim_words::WordsEnd;
use std::alloc::Global;
use top_calls::{Answer, Stop, read_up_to, tell};

const USAGE: &[u8] =
    b"usage: artiq_trace with --cost --lanes --depth --horizon --budget --schedule --edges --hold --recordings\n";

/// Answers the words, which are options of a run: it reads a kernel's text, runs it as `artiq_sim sim` does, and writes the
/// trace of the run.
///
/// The status is 0 where the kernel returned and no output is missing; 1 where the text is refused; 2 where the words aren't
/// accepted; 3 where the source failed, and 4 where a sink did; 5 for want of memory; 6 where the run raised an exception; 7
/// where it used up its units or met the last cycle, or where an output is missing that neither was overridden nor came too
/// late; 8 where the source held too much.
///
/// The run is one of `artiq_sim sim`, and the trace tells each of its requests with the line of the text that asked it, each
/// output with what became of it, and how and where the run ended.
pub fn trace_top<S: Source, K: Sink, E: Sink>(
    alloc: Global,
    words: &[String],
    source: &mut S,
    out: &mut K,
    err: &mut E,
) -> u8
    ensures { AnswersWords tracer (options_asked (map string_bytes words.now))
        (stream S.left S.faults source.old source.new)
        (stream K.held K.faults out.old out.new)
        (stream E.held E.faults err.old err.new)
        result }
{
    tell(answer_of(alloc, words, source), USAGE, out, err)
}

// What the program says to its words and to the bytes of its source.
fn answer_of<S: Source>(alloc: Global, words: &[String], source: &mut S) -> Result<Answer, Stop>
    ensures { IsSaid tracer (options_asked (map string_bytes words.now)) (stream S.left S.faults source.old source.new) result }
{
    let options = match read_options(alloc, words) {
        Ok(options) => options,
        Err(WordsEnd::Refused) => return Err(Stop::Usage),
        Err(WordsEnd::Memory) => return Err(Stop::Memory),
    };
    let text = read_up_to(alloc, source, MOST_TEXT)?;
    Ok(answer_to(alloc, options, &text)?)
}
