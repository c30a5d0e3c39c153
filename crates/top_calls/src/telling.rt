// Telling what a program says.

ghost use Rattle.top_calls.specs.Statuses.{memory_line};
ghost use Rattle.top_calls.specs.Streams.{stream};
ghost use Rattle.top_calls.specs.Tellings.{IsTold, IsWritten};

use crate::answer::Answer;
use crate::finish::status_of;
use crate::stop::Stop;
use lab_io::{Sink, write_all};

/// Tells what a program says, and answers the status that goes with it, or 4 where the sink failed that was written to. What is
/// due goes to out, and a line to err; `usage` is the line for words that aren't accepted.
pub fn tell<K: Sink, E: Sink>(
    said: Result<Answer, Stop>,
    usage: &[u8],
    out: &mut K,
    err: &mut E,
) -> u8
    ensures { IsTold usage.now said
        (stream K.held K.faults out.old out.new)
        (stream E.held E.faults err.old err.new)
        result }
{
    match said {
        Ok(Answer::Due { bytes, finish }) => told(out, &bytes, status_of(finish)),
        Ok(Answer::Refused(line)) => told(err, &line, 1),
        Ok(Answer::Bad(line)) => told(err, &line, 9),
        Err(Stop::Usage) => told(err, usage, 2),
        Err(Stop::ReadFault) => told(err, b"read fault\n", 3),
        Err(Stop::TooLong) => told(err, b"too long\n", 8),
        Err(Stop::Memory) => without_memory(err),
    }
}

/// Says that there is no memory, also where there is none for the words themselves: status 5, or 4 where err can't be written.
pub fn without_memory<E: Sink>(err: &mut E) -> u8
    ensures { IsWritten memory_line 5 (stream E.held E.faults err.old err.new) result }
{
    told(err, b"memory\n", 5)
}

// Writes what is due, and answers its status, or 4 where the sink failed.
fn told<K: Sink>(sink: &mut K, due: &[u8], status: u8) -> u8
    ensures { IsWritten due.now status (stream K.held K.faults sink.old sink.new) result }
{
    match write_all(sink, due) {
        Ok(()) => status,
        Err(_) => 4,
    }
}
