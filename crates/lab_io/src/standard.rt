// Readers and writers of std as sources and sinks.
ghost use Rattle.std.specs.Prelude.{◌≡◌};
ghost use Rattle.std.specs.Io.{ReadsAtMost, WritesAtMost};
ghost use Rattle.std.specs.Io.KnownBytes.{ReadConsumes, WriteAppends};
ghost use Rattle.lab_io.specs.Causes.{HasCause};
ghost use Rattle.lab_io.specs.Standard.{faults_after};
ghost use Rattle.lab_io.specs.Writing.{MakesProgress};

use crate::{Failed, Sink, Source};
use std::io::{self, ErrorKind, Read, Write};
use std::marker::Model;

/// A reader of std as a source: `StdSource::new(rt.stdin())` is standard input.
///
/// An error of the reader is a fault. A read that a signal interrupted is no error, as in std's
/// own loops: it moved nothing, and is made again.
///
/// The source tells of its bytes what the reader tells. A stream of the system tells nothing, so
/// what comes from there is trusted.
#[derive(Debug, Drop)]
pub struct StdSource<R: Read> {
    reader: R,
    faults: u64,
}

impl<R: Read> Model for StdSource<R> {
    ghost use Rattle.lab_io.specs.Standard.{StreamState};

    ghost Value = { StreamState };

    ghost view = { λ s. record { told = R.remaining s.reader; faults = s.faults } };
}

impl<R: Read> StdSource<R> {
    /// The reader as a source that has not failed yet.
    pub fn new(reader: R) -> StdSource<R>
        ensures { result ≡ record { told = R.remaining reader; faults = 0 } }
    {
        StdSource { reader, faults: 0 }
    }
}

impl<R: Read> Source for StdSource<R> {
    ghost left = { λ s. s.told };

    ghost faults = { λ s. s.faults };

    fn read(&mut self, buf: &mut [u8]) -> Result<usize, Failed>
        ensures bound { ReadsAtMost result buf.new }
        ensures bytes { ReadConsumes self.old.told self.new.told result buf.new }
        ensures cause { HasCause self.old.faults self.new.faults result }
        ensures counted { self.new.faults ≡ faults_after self.old.faults result }
    {
        match read_uninterrupted(&mut self.reader, buf) {
            Ok(count) => Ok(count),
            Err(_) => {
                self.faults = self.faults.saturating_add(1);
                Err(Failed)
            }
        }
    }
}

/// A writer of std as a sink: `StdSink::new(rt.stdout())` is standard output.
///
/// An error of the writer is a fault, and so is a write that takes nothing of a piece that isn't
/// empty. A write that a signal interrupted is no error, as in std's own loops: it took nothing,
/// and is made again.
///
/// The bytes that a call answers `Ok` for are the writer's, and are not flushed. Those of std's
/// standard streams, which keep no buffer, have gone to the system. Flush a writer that keeps one.
///
/// The sink tells of the bytes held what the writer tells. A stream of the system tells nothing,
/// so what arrives there is trusted.
#[derive(Debug, Drop)]
pub struct StdSink<W: Write> {
    writer: W,
    faults: u64,
}

impl<W: Write> Model for StdSink<W> {
    ghost use Rattle.lab_io.specs.Standard.{StreamState};

    ghost Value = { StreamState };

    ghost view = { λ s. record { told = W.contents s.writer; faults = s.faults } };
}

impl<W: Write> StdSink<W> {
    /// The writer as a sink that has not failed yet.
    pub fn new(writer: W) -> StdSink<W>
        ensures { result ≡ record { told = W.contents writer; faults = 0 } }
    {
        StdSink { writer, faults: 0 }
    }
}

impl<W: Write> Sink for StdSink<W> {
    ghost held = { λ s. s.told };

    ghost faults = { λ s. s.faults };

    fn write(&mut self, bytes: &[u8]) -> Result<usize, Failed>
        ensures bound { WritesAtMost result bytes.now }
        ensures progress { MakesProgress result bytes.now }
        ensures bytes { WriteAppends self.old.told self.new.told result bytes.now }
        ensures cause { HasCause self.old.faults self.new.faults result }
        ensures counted { self.new.faults ≡ faults_after self.old.faults result }
    {
        match write_uninterrupted(&mut self.writer, bytes) {
            Ok(count) if count > 0 || bytes.is_empty() => Ok(count),
            _ => {
                self.faults = self.faults.saturating_add(1);
                Err(Failed)
            }
        }
    }
}

// One read, made again where a signal interrupted it, as std's own loops do.
fn read_uninterrupted<R: Read>(reader: &mut R, buf: &mut [u8]) -> io::Result<usize>
    ensures bound { ReadsAtMost result buf.new }
    ensures bytes { ReadConsumes (R.remaining reader.old) (R.remaining reader.new) result buf.new }
{
    for _ in 0..u64::MAX {
        match reader.read(buf) {
            Err(error) if error.kind() == ErrorKind::Interrupted => {}
            answer => return answer,
        }
    }
    Err(ErrorKind::Interrupted.into())
}

// One write, made again where a signal interrupted it, as std's own loops do.
fn write_uninterrupted<W: Write>(writer: &mut W, bytes: &[u8]) -> io::Result<usize>
    ensures bound { WritesAtMost result bytes.now }
    ensures bytes { WriteAppends (W.contents writer.old) (W.contents writer.new) result bytes.now }
{
    for _ in 0..u64::MAX {
        match writer.write(bytes) {
            Err(error) if error.kind() == ErrorKind::Interrupted => {}
            answer => return answer,
        }
    }
    Err(ErrorKind::Interrupted.into())
}
