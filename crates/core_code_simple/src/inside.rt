// What stands round a statement.

use core_isa::Mark;

/// The enclosing loop: where it goes on, where it ends, and how many handlers there were before it.
#[derive(Clone, Copy, Debug, PartialEq, Eq)]
pub struct LoopPlaces {
    /// The place at which the next turn begins, or the loop ends.
    pub again: u32,
    /// The place behind the loop.
    pub past: u32,
    /// How many handlers there were before the loop.
    pub tries: u8,
}

/// What stands round a statement.
#[derive(Clone, Copy, Debug, PartialEq, Eq)]
pub struct Inside {
    /// The mark at the statement's first instruction.
    pub mark: Mark,
    /// The first slot that is free.
    pub free: u16,
    /// The enclosing loop; where there is none, any places, which no statement goes to.
    pub enclosing: LoopPlaces,
}
