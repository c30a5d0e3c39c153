// What a core did, as a value.

use rtio_log::LogLine;
use rtio_types::Event;
use std::alloc::AllocError;
use std::marker::Model;

/// The letters that a dump's bytes begin with: `DUM1`.
pub const MAGIC: [u8; 4] = [b'D', b'U', b'M', b'1'];

/// How many bytes stand before the events: the letters, the counter and the number of events.
pub const HEADER: usize = 16;

/// How many bytes an event has.
pub const EVENT: usize = 14;

/// How many bytes the number of lines has.
pub const COUNT: usize = 4;

/// How many bytes a line has.
pub const LINE: usize = 23;

/// What a core did so far.
#[derive(Debug, Drop)]
pub struct Dump {
    /// The core's counter, in cycles.
    pub counter: u64,
    /// The events that it put out, by stamp (mu) and channel.
    pub events: Vec<Event>,
    /// The events that it didn't put out, in the order of its log.
    pub lines: Vec<LogLine>,
}

impl Model for Dump {
    ghost use Rattle.core_analyzer.specs.Dumps.{Dumped};

    ghost Value = { Dumped };

    ghost view = { λ d. record { counter = d.counter; events = d.events.items; lines = d.lines.items } };
}

/// Why bytes give no dump.
#[derive(Clone, Copy, Debug, PartialEq, Eq)]
pub enum DumpEnd {
    /// The place, from 0, where the first field begins that is cut off or out of its range, or where bytes follow the last.
    Fault { offset: u64 },
    /// Want of memory.
    Memory,
}

impl From<AllocError> for DumpEnd {
    ghost use Rattle.std.specs.Prelude.{◌≡◌};
    ghost use Rattle.core_analyzer.specs.declared.dump.DumpEnd.TheVariants.{Memory};

    ghost from_gives = { λ _ end. end ≡ Memory };

    fn from(_: AllocError) -> DumpEnd {
        DumpEnd::Memory
    }
}
