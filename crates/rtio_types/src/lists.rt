// Lists that contracts see as lists, and a recording as a list and a number.

ghost use Rattle.std.specs.Prelude.{◌≡◌, IfOk};

use crate::{Edge, Event};
use std::alloc::{AllocError, Global};
use std::marker::Model;

/// A list of numbers, which contracts see as that list.
#[derive(Debug, Drop)]
pub struct IntList {
    numbers: Vec<i64>,
}

impl Model for IntList {
    ghost use Rattle.std.specs.Prelude.{List, ℤ};

    ghost Value = { List ℤ };

    ghost view = { λ l. l.numbers.items };
}

impl IntList {
    /// The list of these numbers.
    pub fn of(items: Vec<i64>) -> IntList
        ensures { result ≡ items.items }
    {
        IntList { numbers: items }
    }

    /// The numbers in order.
    pub fn items(&self) -> &[i64]
        ensures { result.now ≡ self.now }
    {
        self.numbers.as_slice()
    }

    /// An equal list; the only error is want of memory.
    pub fn copy(&self, alloc: Global) -> Result<IntList, AllocError>
        ensures { IfOk result (λ copy. copy ≡ self.now) }
    {
        Ok(IntList {
            numbers: Vec::from_slice(alloc, self.numbers.as_slice())?,
        })
    }
}

/// A list of edges, which contracts see as that list.
#[derive(Debug, Drop)]
pub struct EdgeList {
    edges: Vec<Edge>,
}

impl Model for EdgeList {
    ghost use Rattle.std.specs.Prelude.{List};
    ghost use Rattle.rtio_types.specs.declared.event.Edge.{Edge};

    ghost Value = { List Edge };

    ghost view = { λ l. l.edges.items };
}

impl EdgeList {
    /// The list of these edges.
    pub fn of(items: Vec<Edge>) -> EdgeList
        ensures { result ≡ items.items }
    {
        EdgeList { edges: items }
    }

    /// The edges in order.
    pub fn items(&self) -> &[Edge]
        ensures { result.now ≡ self.now }
    {
        self.edges.as_slice()
    }

    /// An equal list; the only error is want of memory.
    pub fn copy(&self, alloc: Global) -> Result<EdgeList, AllocError>
        ensures { IfOk result (λ copy. copy ≡ self.now) }
    {
        Ok(EdgeList {
            edges: Vec::from_slice(alloc, self.edges.as_slice())?,
        })
    }
}

/// What a recorded block put out, to be played back later, as by the ARTIQ manual's DMA.
#[derive(Debug, Drop)]
pub struct Recording {
    /// The outputs in the order of the block, with stamps in mu from its start.
    pub events: Vec<Event>,
    /// How far the block moved the cursor, in mu.
    pub length: i64,
}

impl Model for Recording {
    ghost use Rattle.rtio_types.specs.Recordings.{Recorded};

    ghost Value = { Recorded };

    ghost view = { λ r. record { events = r.events.items; length = r.length } };
}

impl Recording {
    /// An equal recording; the only error is want of memory.
    pub fn copy(&self, alloc: Global) -> Result<Recording, AllocError>
        ensures { IfOk result (λ copy. copy ≡ self.now) }
    {
        let length = self.length;
        Ok(Recording {
            events: Vec::from_slice(alloc, self.events.as_slice())?,
            length,
        })
    }
}
