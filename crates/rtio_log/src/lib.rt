//! The log of a core: which events were not put out, and why.
#![tactic(auto)]

ghost use Rattle.std.specs.Prelude.{◌≡◌, ◌+◌, ◌-◌, ◌<◌, ◌++◌, [], ◌∷◌, OnOk, OnErr};

mod kinds;

pub use kinds::is_kind;
use rtio_types::Event;
use std::alloc::{AllocError, Global};
use std::marker::Model;

/// Why an event was not put out.
#[derive(Clone, Copy, Debug, PartialEq, Eq)]
pub enum LogKind {
    /// It was out of sequence: the lane that had to take it had a last cycle that isn't earlier (ARTIQ manual).
    Sequence,
    /// It collided with an event of its channel and cycle that was put out (ARTIQ manual).
    Collision,
    /// Its channel was still executing an earlier event (ARTIQ manual: busy).
    Busy,
    /// A reset took it away before its cycle.
    Cleared,
}

/// An event that was not put out.
#[derive(Clone, Copy, Debug, PartialEq, Eq)]
pub struct LogLine {
    /// Why.
    pub kind: LogKind,
    /// Its number: how many outputs were asked before it, late ones counted.
    pub number: u64,
    /// The event itself.
    pub event: Event,
}

/// The lines of a log in the order of adding, and room for more that was taken before.
#[derive(Debug, Drop)]
pub struct Log {
    lines: Vec<LogLine>,
    room: u64,
}

impl Model for Log {
    ghost use Rattle.std.specs.Prelude.{◌≤◌, ◌+◌, vec_len, vec_capacity};
    ghost use Rattle.rtio_log.specs.Lines.{LogState};

    ghost Value = { LogState };

    ghost view = { λ a. record { lines = a.lines.items; room = a.room } };

    ghost invariant = { λ a. vec_len a.lines + a.room ≤ vec_capacity a.lines };
}

impl Log {
    /// No line, and no room.
    pub fn new(alloc: Global) -> Log
        ensures { result ≡ record { lines = []; room = 0 } }
    {
        Log {
            lines: Vec::new(alloc),
            room: 0,
        }
    }

    /// How many lines more there is room for.
    pub fn room(&self) -> u64
        ensures { result ≡ self.now.room }
    {
        self.room
    }

    /// Takes room for so many lines more.
    pub fn reserve(&mut self, n: u64) -> Result<(), AllocError>
        ensures ok { OnOk result (self.new ≡ record { lines = self.old.lines; room = self.old.room + n }) }
        ensures err { OnErr result (self.new ≡ self.old) }
    {
        let Some(room) = self.room.checked_add(n) else {
            return Err(AllocError);
        };
        self.lines.reserve(room as usize)?;
        self.room = room;
        Ok(())
    }

    /// Adds a line at the end.
    pub fn add(&mut self, line: LogLine)
        requires { 0 < self.old.room }
        ensures { self.new ≡ record { lines = self.old.lines ++ line ∷ []; room = self.old.room - 1 } }
    {
        self.lines.push_reserved(line);
        self.room -= 1;
    }

    /// The lines in the order of adding.
    pub fn lines(&self) -> &[LogLine]
        ensures { result.now ≡ self.now.lines }
    {
        &self.lines
    }
}
