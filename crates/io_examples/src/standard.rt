// The adapters over a stream that answers as told, and over bytes in memory.
ghost use Rattle.std.specs.Prelude.{◌≤◌, IfOk};

use lab_io::{Failed, Sink, Source, StdSink, StdSource, read_all, write_all};
use std::io::{self, ErrorKind, Read, Write};
use std::test::Fail;

#[derive(Clone, Copy)]
enum Turn {
    Moves(usize),
    Interrupted,
    Broken,
}

// Answers its calls by these turns, and moves nothing after them.
#[derive(Drop)]
struct Scripted<'a> {
    turns: &'a [Turn],
}

impl Scripted<'_> {
    fn answer(&mut self, most: usize) -> io::Result<usize>
        ensures { IfOk result (λ n. n ≤ most) }
    {
        let Some((turn, rest)) = self.turns.split_first() else {
            return Ok(0);
        };
        self.turns = rest;
        match *turn {
            Turn::Moves(count) => Ok(count.min(most)),
            Turn::Interrupted => Err(ErrorKind::Interrupted.into()),
            Turn::Broken => Err(ErrorKind::BrokenPipe.into()),
        }
    }
}

impl Read for Scripted<'_> {
    fn read(&mut self, buf: &mut [u8]) -> io::Result<usize> {
        self.answer(buf.len())
    }
}

impl Write for Scripted<'_> {
    fn write(&mut self, bytes: &[u8]) -> io::Result<usize> {
        self.answer(bytes.len())
    }

    fn flush(&mut self) -> io::Result<()> {
        Ok(())
    }
}

#[test]
fn a_source_fails_at_each_error_but_interruptions(rt: HostRuntime) {
    let turns = [
        Turn::Moves(9),
        Turn::Interrupted,
        Turn::Interrupted,
        Turn::Moves(3),
        Turn::Broken,
        Turn::Interrupted,
        Turn::Broken,
    ];
    let mut source = StdSource::new(Scripted { turns: &turns });
    let mut buf = [0; 8];
    let answers = [Ok(8), Ok(3), Err(Failed), Err(Failed), Ok(0)];
    for (call, answer) in answers.into_iter().enumerate() {
        assert_eq!(rt; source.read(&mut buf), answer, "call {call}");
    }
}

#[test]
fn a_sink_fails_at_each_error_and_each_write_of_nothing(rt: HostRuntime) {
    let turns = [
        Turn::Moves(2),
        Turn::Interrupted,
        Turn::Moves(9),
        Turn::Broken,
        Turn::Moves(0),
    ];
    let mut sink = StdSink::new(Scripted { turns: &turns });
    let answers = [Ok(2), Ok(4), Err(Failed), Err(Failed)];
    for (call, answer) in answers.into_iter().enumerate() {
        assert_eq!(rt; sink.write(b"text"), answer, "call {call}");
    }
    assert_eq!(rt; sink.write(b""), Ok(0));
}

#[test]
fn bytes_in_memory_pass_through(rt: HostRuntime) -> Result<(), Fail> {
    let alloc = rt.alloc();
    let text = b"def main():\n    ttl0.on()\n";
    let read = read_all(alloc, &mut StdSource::new(text.as_slice()), 64)?;
    assert_eq!(rt; read.as_slice(), text.as_slice());
    let mut written = Vec::new(alloc);
    assert_eq!(rt; write_all(&mut StdSink::new(&mut written), text), Ok(()));
    assert_eq!(rt; written.as_slice(), text.as_slice());
    Ok(())
}
