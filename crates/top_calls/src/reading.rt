// Reading the bytes that a command works on.

ghost use Rattle.std.specs.Prelude.{◌≤◌, length, IfOk};
ghost use Rattle.top_calls.specs.Commands.{Reads};
ghost use Rattle.top_calls.specs.Sayings.{IsGot};
ghost use Rattle.top_calls.specs.Streams.{stream};

use crate::stop::Stop;
use lab_io::{ReadEnd, Source, read_all};
use std::alloc::Global;

/// Reads a source to its end, which may hold `most` bytes. It gives up where the source fails, where it holds more, of which
/// one is taken, and for want of memory.
pub fn read_up_to<S: Source>(alloc: Global, source: &mut S, most: u64) -> Result<Vec<u8>, Stop>
    ensures got { IsGot (Reads most) (stream S.left S.faults source.old source.new) result }
    ensures within { IfOk result (λ bytes. length bytes.items ≤ most) }
{
    match read_all(alloc, source, most) {
        Ok(bytes) => Ok(bytes),
        Err(ReadEnd::Fault) => Err(Stop::ReadFault),
        Err(ReadEnd::TooLong) => Err(Stop::TooLong),
        Err(ReadEnd::Memory) => Err(Stop::Memory),
    }
}
