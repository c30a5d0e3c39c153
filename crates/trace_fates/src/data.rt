// What is told of an output.

use rtio_types::Event;

/// What became of an output. Where several hold, it is the first in this order, and `CameOut` where none of the others
/// does; the order is this project's own.
#[derive(Clone, Copy, Debug, PartialEq, Eq)]
pub enum Fate {
    /// It came too late: the counter had reached its cycle (ARTIQ manual: underflow).
    Late,
    /// It was out of sequence (ARTIQ manual).
    Sequence,
    /// A reset took it away before its cycle.
    Cleared,
    /// It collided with an output of its channel and cycle (ARTIQ manual).
    Collided,
    /// Its channel was still executing an earlier output (ARTIQ manual: busy).
    Busy,
    /// The output of number `by` overrides it: the first later one of the channel with its stamp that was
    /// neither too late nor out of sequence (ARTIQ manual: replacement). That one has a fate of its own.
    Overridden { by: u64 },
    /// The counter hasn't reached its cycle, and none overrides it.
    Pending,
    /// It came out.
    CameOut,
}

/// An output that was asked for and answered.
#[derive(Clone, Copy, Debug, PartialEq, Eq)]
pub struct TracedOutput {
    /// Its number: how many outputs were asked before it, late ones counted.
    pub number: u64,
    /// The output itself.
    pub event: Event,
    /// The counter at the answer, in cycles.
    pub at: u64,
    /// What became of it.
    pub fate: Fate,
}
