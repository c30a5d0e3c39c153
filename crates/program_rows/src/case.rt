// What the lines of a row say of its runs.

use crate::left::Left;
use std::alloc::{AllocError, Global};
use table_rows::{push_bytes, push_text};

/// A stream of a program.
#[derive(Clone, Copy)]
pub enum Stream {
    Source,
    Out,
    Err,
}

/// A call of a stream, by its number from 0.
#[derive(Clone, Copy)]
pub struct Call {
    pub stream: Stream,
    pub number: u64,
}

/// What a row says, and what its last run left if the next may be the same.
#[derive(Drop)]
pub struct Case {
    /// The source's text.
    pub text: Vec<u8>,
    /// The bytes of a recording.
    pub recording: Vec<u8>,
    /// How many bytes a read moves at most.
    pub read: u64,
    /// How many bytes a write moves at most.
    pub write: u64,
    /// The calls of the source that fail.
    pub source: Vec<u64>,
    /// The calls of out that fail.
    pub out: Vec<u64>,
    /// The calls of err that fail.
    pub err: Vec<u64>,
    /// The words by which lines of out begin that aren't shown.
    pub hidden: String,
    /// What stands apart in the report of a session.
    pub apart: String,
    /// What stands behind the words that are asked.
    pub more: String,
    pub last: Option<Left>,
}

impl Case {
    /// A row that has said nothing, whose writes move at most so many bytes.
    pub fn new(alloc: Global, write: u64) -> Case {
        Case {
            text: Vec::new(alloc),
            recording: Vec::new(alloc),
            read: 4096,
            write,
            source: Vec::new(alloc),
            out: Vec::new(alloc),
            err: Vec::new(alloc),
            hidden: String::new(alloc),
            apart: String::new(alloc),
            more: String::new(alloc),
            last: None,
        }
    }

    /// Takes a line that asks for no run. Fails only for want of memory.
    pub fn take(&mut self, line: &str) -> Result<(), AllocError> {
        let (word, rest) = line.split_once(' ').unwrap_or((line, ""));
        match word {
            "+" => push_bytes(&mut self.recording, rest),
            "pieces" => {
                self.take_pieces(rest);
                Ok(())
            }
            "~" => self.take_call(rest),
            "hide" => self.hidden.push_str(rest),
            "apart" => self.apart.push_str(rest),
            "more" => push_items(&mut self.more, rest),
            _ => push_text(&mut self.text, line),
        }
    }

    fn take_pieces(&mut self, numbers: &str) {
        if let Some((read, write)) = numbers.split_once(' ') {
            self.read = read.parse().unwrap_or(1);
            self.write = write.parse().unwrap_or(1);
        }
    }

    fn take_call(&mut self, words: &str) -> Result<(), AllocError> {
        match call_of(words) {
            Some(call) => self.push(call),
            None => Ok(()),
        }
    }

    /// Adds a call that fails. Fails only for want of memory.
    pub fn push(&mut self, call: Call) -> Result<(), AllocError> {
        match call.stream {
            Stream::Source => self.source.push(call.number)?,
            Stream::Out => self.out.push(call.number)?,
            Stream::Err => self.err.push(call.number)?,
        }
        Ok(())
    }

    /// Takes back the call of a stream that was added last.
    pub fn pop(&mut self, stream: Stream) {
        let _number = match stream {
            Stream::Source => self.source.pop(),
            Stream::Out => self.out.pop(),
            Stream::Err => self.err.pop(),
        };
    }
}

// Pushes an item so many times, with the number of each time, from 1, for its `#`.
fn push_items(more: &mut String, items: &str) -> Result<(), AllocError> {
    let (count, item) = items.split_once(' ').unwrap_or((items, ""));
    let (before, behind) = item.split_once('#').unwrap_or((item, ""));
    for time in 0..count.parse::<u16>().unwrap_or(0) {
        write!(more, "{before}{}{behind}", u32::from(time) + 1)?;
    }
    Ok(())
}

fn call_of(words: &str) -> Option<Call> {
    let (stream, number) = words.split_once(' ')?;
    Some(Call {
        stream: stream_of(stream)?,
        number: number.parse().ok()?,
    })
}

/// The stream of this name.
pub fn stream_of(name: &str) -> Option<Stream> {
    match name {
        "source" => Some(Stream::Source),
        "out" => Some(Stream::Out),
        "err" => Some(Stream::Err),
        _ => None,
    }
}
