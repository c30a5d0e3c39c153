// The program as a function: words and bytes in, bytes and a status out.

ghost use Rattle.lab_program.specs.Answers.{laboratory, session_asked};
ghost use Rattle.top_calls.specs.Calls.{AnswersWords};
ghost use Rattle.top_calls.specs.Sayings.{IsSaid};
ghost use Rattle.top_calls.specs.Streams.{stream};

use crate::answer::answer_to;
use lab_io::{Sink, Source};
use limits::MOST_SESSION;
use stage_work::Gate;
use std::alloc::Global;
use std::sync::Wait;
use std::thread::Threads;
use top_calls::{Answer, Stop, read_up_to, tell};

const USAGE: &[u8] = b"usage: artiq_lab\n";

/// Reads a session, has as many workers as it says do what it asks for, and writes the report. One worker works alone; of several each
/// runs in a thread of its own, where one can be made. What is promised is promised of all the orders in which they may take turns.
///
/// The status is 0 where the report was written, whatever became of the runs; 1 where the text is no session; 2 where there is a
/// word; 3 where the source failed, and 4 where a sink did; 5 for want of memory; 8 where the source held too much.
///
/// The report is of a run of the session: of a scheduler's lawful history in which every run has ended, and of lawful histories of
/// the cores, in which each request was asked as late as it might be. Of each worker the sessions on a core are just the kernel
/// steps that it reported, each of its step's source, function and arguments, with the requests, outcome and cursor that the source
/// means; and what each core put out is what its sessions submitted, less what was overridden and what the log names.
pub fn lab_top<R: Threads + Wait + Sync, S: Source, K: Sink, E: Sink, G: Gate + Sync>(
    rt: &R,
    alloc: Global,
    words: &[String],
    source: &mut S,
    out: &mut K,
    err: &mut E,
    gate: &G,
) -> u8
    ensures { AnswersWords laboratory (session_asked words.now)
        (stream S.left S.faults source.old source.new)
        (stream K.held K.faults out.old out.new)
        (stream E.held E.faults err.old err.new)
        result }
{
    let said = answer_of(rt, alloc, words, source, gate);
    tell(said, USAGE, out, err)
}

// What the program says to its words, of which it accepts none, and to the bytes of its source.
fn answer_of<R: Threads + Wait + Sync, S: Source, G: Gate + Sync>(
    rt: &R,
    alloc: Global,
    words: &[String],
    source: &mut S,
    gate: &G,
) -> Result<Answer, Stop>
    ensures { IsSaid laboratory (session_asked words.now) (stream S.left S.faults source.old source.new) result }
{
    if !words.is_empty() {
        return Err(Stop::Usage);
    }
    let text = read_up_to(alloc, source, MOST_SESSION)?;
    Ok(answer_to(rt, alloc, &text, gate)?)
}
