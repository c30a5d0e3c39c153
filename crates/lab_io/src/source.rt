// A source of bytes, and reading one to its end.
ghost use Rattle.std.specs.Prelude.{◌≡◌, ◌≢◌, ◌+◌, ◌≤◌, List, ℕ, IfOk, IfErr, MatchResult, length, min};
ghost use Rattle.std.specs.declared.option.Option.{Option};
ghost use Rattle.std.specs.Io.{ReadsAtMost};
ghost use Rattle.std.specs.Io.KnownBytes.{ReadConsumes};
ghost use Rattle.lab_io.specs.declared.source.ReadEnd.TheVariants.{Memory};
ghost use Rattle.lab_io.specs.Causes.{HasCause, Rose};
ghost use Rattle.lab_io.specs.Reading.{ReadsToEnd, ReadsPiece, GivesUp};

use std::alloc::{AllocError, Global};
use thiserror::Error;

/// A call of a [`Source`] or a [`Sink`](crate::Sink) failed. It moved nothing, and was counted.
#[derive(Clone, Copy, Debug, PartialEq, Eq, Hash, Error)]
#[error("the call failed")]
pub struct Failed;

/// Where bytes come from, a piece at a time.
pub trait Source {
    /// The bytes still to come, where the source tells them.
    ghost left: { Self → Option (List ℕ) };

    /// How many calls have failed, from 0 on. The count stands still at 2^64 - 1.
    ghost faults: { Self → ℕ };

    /// Moves the first bytes that are left to the start of the buffer, and returns how many.
    /// None into a buffer with room means the end.
    ///
    /// A call that fails leaves the bytes where they are and raises the count of faults by one.
    /// No other call changes the count.
    fn read(&mut self, buf: &mut [u8]) -> Result<usize, Failed>
        ensures bound { ReadsAtMost result buf.new }
        ensures bytes { ReadConsumes (left self.old) (left self.new) result buf.new }
        ensures cause { HasCause (faults self.old) (faults self.new) result };
}

/// Why reading to the end gave up.
#[derive(Clone, Copy, Debug, PartialEq, Eq, Hash, Error)]
pub enum ReadEnd {
    /// The source failed.
    #[error("read fault")]
    Fault,
    /// The source held more bytes than the maximum.
    #[error("too long")]
    TooLong,
    /// There was no memory for the bytes.
    #[error("memory")]
    Memory,
}

impl From<AllocError> for ReadEnd {
    ghost from_gives = { λ _ e. e ≡ Memory };

    fn from(_: AllocError) -> Self {
        ReadEnd::Memory
    }
}

// How many bytes a read asks for at most.
const PIECE: usize = 4096;

/// Reads the source to its end, and returns all its bytes, at most `max`.
///
/// It gives up with `Fault` where a read fails, with `TooLong` once it has taken `max + 1` bytes,
/// and with `Memory` where no memory is left. What it took till then is gone from the source: at
/// most `max` bytes, and `max + 1` at `TooLong` alone.
pub fn read_all<S: Source>(alloc: Global, source: &mut S, max: u64) -> Result<Vec<u8>, ReadEnd>
    ensures bytes { ReadsToEnd max (S.left source.old) (S.left source.new) result }
    ensures later { S.faults source.old ≤ S.faults source.new }
    ensures fault { result ≡ Err ReadEnd.Fault → Rose (S.faults source.old) (S.faults source.new) }
    // One read failed, or none where the answer is another.
    ensures once { S.faults source.new ≤ S.faults source.old + 1 }
    ensures steady { MatchResult result
        (λ _. S.faults source.new ≡ S.faults source.old)
        (λ end. end ≢ ReadEnd.Fault → S.faults source.new ≡ S.faults source.old) }
{
    let mut bytes = Vec::new(alloc);
    let mut buf = vec![in alloc; 0u8; PIECE]?;
    loop {
        match read_piece(source, &mut buf, &mut bytes, max) {
            Ok(true) => {}
            Ok(false) => return Ok(bytes),
            Err(end) => return Err(end),
        }
    }
}

// Appends the next piece to the bytes, of which there are at most `max`. Whether there may be more.
fn read_piece<S: Source>(
    source: &mut S,
    buf: &mut [u8],
    bytes: &mut Vec<u8>,
    max: u64,
) -> Result<bool, ReadEnd>
    requires buffer { length buf.old ≡ PIECE }
    requires within { length bytes.old.items ≤ max }
    ensures ok { IfOk result (ReadsPiece max
        (S.left source.old) (S.left source.new) bytes.old.items bytes.new.items) }
    ensures err { IfErr result (GivesUp max
        (S.left source.old) (S.left source.new) (length bytes.old.items)) }
    ensures later { S.faults source.old ≤ S.faults source.new }
    ensures fault { result ≡ Err ReadEnd.Fault → Rose (S.faults source.old) (S.faults source.new) }
    ensures once { S.faults source.new ≤ S.faults source.old + 1 }
    ensures steady { MatchResult result
        (λ _. S.faults source.new ≡ S.faults source.old)
        (λ end. end ≢ ReadEnd.Fault → S.faults source.new ≡ S.faults source.old) }
{
    let rest = max - bytes.len() as u64;
    let room = next_room(rest);
    let count = match source.read(&mut buf[..room]) {
        Ok(count) => count,
        Err(Failed) => return Err(ReadEnd::Fault),
    };
    if count as u64 > rest {
        return Err(ReadEnd::TooLong);
    }
    bytes.extend_from_slice(&buf[..count])?;
    Ok(count > 0)
}

// Room for the next piece: one byte more than may still come, to see that too many come.
fn next_room(rest: u64) -> usize
    ensures { result ≡ min PIECE (rest + 1) }
{
    if rest < PIECE as u64 {
        rest as usize + 1
    } else {
        PIECE
    }
}
