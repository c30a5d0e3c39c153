// A sink of bytes, and writing whole pieces to one.
ghost use Rattle.std.specs.Prelude.{◌≡◌, ◌<◌, ◌≤◌, List, ℕ, IfOk, OnOk, OnErr, length};
ghost use Rattle.std.specs.declared.option.Option.{Option};
ghost use Rattle.std.specs.Io.{WritesAtMost};
ghost use Rattle.std.specs.Io.KnownBytes.{Appends, WriteAppends};
ghost use Rattle.lab_io.specs.Causes.{HasCause};
ghost use Rattle.lab_io.specs.Writing.{AppendsPart, MakesProgress};

use crate::Failed;

/// Where bytes go to, a piece at a time.
pub trait Sink {
    /// The bytes held, where the sink tells them.
    ghost held: { Self → Option (List ℕ) };

    /// How many calls have failed, from 0 on. The count stands still at 2^64 - 1.
    ghost faults: { Self → ℕ };

    /// Appends the first bytes of the piece, and returns how many: at least one of a piece that
    /// isn't empty.
    ///
    /// A call that fails appends nothing and raises the count of faults by one. No other call
    /// changes the count.
    fn write(&mut self, bytes: &[u8]) -> Result<usize, Failed>
        ensures bound { WritesAtMost result bytes.now }
        ensures progress { MakesProgress result bytes.now }
        ensures bytes { WriteAppends (held self.old) (held self.new) result bytes.now }
        ensures cause { HasCause (faults self.old) (faults self.new) result };
}

/// Appends all the bytes. Where a write fails it stops at once, and the sink has got some of them
/// from the front, but not all.
pub fn write_all<K: Sink>(sink: &mut K, bytes: &[u8]) -> Result<(), Failed>
    ensures ok { OnOk result (Appends (K.held sink.old) (K.held sink.new) bytes.now) }
    ensures err { OnErr result (AppendsPart (K.held sink.old) (K.held sink.new) bytes.now) }
    ensures cause { HasCause (K.faults sink.old) (K.faults sink.new) result }
{
    let mut done = 0;
    while done < bytes.len() {
        done += sink.write(&bytes[done..])?;
    }
    Ok(())
}
