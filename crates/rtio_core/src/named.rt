// Recordings that a core begins with.

ghost use Rattle.std.specs.Prelude.{◌≡◌, IfOk};
ghost use Rattle.std.specs.List.{list_all, list_any};
ghost use Rattle.rtio_types.specs.Board.{are_of_board, is_of_board};
ghost use Rattle.dma_store.specs.Kept.{is_playable};
ghost use Rattle.rtio_core.specs.declared.named.Named.{Named};
ghost use Rattle.rtio_core.specs.Handed.{are_kept_ok, are_names_different, has_name};

use limits::MOST_HANDED_IN;
use rtio_types::{Event, Name, Recording, Request, well_formed};
use std::alloc::{AllocError, Global};
use std::marker::Model;

/// A recording and its name.
#[derive(Debug, Drop)]
pub struct Named {
    /// The name.
    pub name: Name,
    /// The recording.
    pub recording: Recording,
}

impl Named {
    /// An equal value; the only error is want of memory.
    pub fn copy(&self, alloc: Global) -> Result<Named, AllocError>
        ensures { IfOk result (λ copy. copy ≡ self.now) }
    {
        Ok(Named {
            name: self.name,
            recording: self.recording.copy(alloc)?,
        })
    }
}

/// A list of recordings with their names, which contracts see as that list.
#[derive(Debug, Drop)]
pub struct NamedList {
    recordings: Vec<Named>,
}

impl Model for NamedList {
    ghost use Rattle.std.specs.Prelude.{List};
    ghost use Rattle.rtio_core.specs.declared.named.Named.{Named};

    ghost Value = { List Named };

    ghost view = { λ l. l.recordings.items };
}

impl NamedList {
    /// The list of these recordings.
    pub fn of(items: Vec<Named>) -> NamedList
        ensures { result ≡ items.items }
    {
        NamedList { recordings: items }
    }

    /// The recordings in order.
    pub fn items(&self) -> &[Named]
        ensures { result.now ≡ self.now }
    {
        self.recordings.as_slice()
    }

    /// An equal list; the only error is want of memory.
    pub fn copy(&self, alloc: Global) -> Result<NamedList, AllocError>
        ensures { IfOk result (λ copy. copy ≡ self.now) }
    {
        Ok(NamedList {
            recordings: copied(alloc, self.recordings.as_slice())?,
        })
    }
}

// Equal recordings under the same names; the only error is want of memory.
fn copied(alloc: Global, items: &[Named]) -> Result<Vec<Named>, AllocError>
    ensures { IfOk result (λ copies. copies.items ≡ items.now) }
{
    let mut copies = Vec::with_capacity(alloc, items.len())?;
    for item in items {
        copies.push(item.copy(alloc)?)?;
    }
    Ok(copies)
}

/// Whether a core may begin with the recordings: at most 64, of different names, each of fewer than 2^32 events of the
/// board.
pub fn kept_ok(kept: &[Named]) -> bool
    ensures { result ≡ are_kept_ok kept.now }
{
    kept.len() <= MOST_HANDED_IN && are_playable(kept) && are_names_different(kept)
}

// Whether each recording may be kept.
fn are_playable(kept: &[Named]) -> bool
    ensures { result ≡ list_all (λ (n : Named). is_playable n.recording) kept.now }
{
    kept.iter().all(|named| is_playable(&named.recording))
}

// Whether a recording may be kept.
fn is_playable(recording: &Recording) -> bool
    ensures { result ≡ is_playable recording.now }
{
    recording.events.len() < 1 << 32 && are_of_board(&recording.events)
}

fn are_of_board(events: &[Event]) -> bool
    ensures { result ≡ are_of_board events.now }
{
    events.iter().all(|event| is_of_board(event))
}

fn is_of_board(event: &Event) -> bool
    ensures { result ≡ is_of_board event.now }
{
    well_formed(&Request::Out(*event))
}

// Whether no two of the recordings have one name.
fn are_names_different(kept: &[Named]) -> bool
    ensures { result ≡ are_names_different kept.now }
{
    let mut left = kept;
    while let Some((first, rest)) = left.split_first() {
        if is_named_in(&first.name, rest) {
            return false;
        }
        left = rest;
    }
    true
}

// Whether one of the recordings has the name.
fn is_named_in(name: &Name, kept: &[Named]) -> bool
    ensures { result ≡ list_any (has_name name.now) kept.now }
{
    kept.iter().any(|named| has_name(name, named))
}

fn has_name(name: &Name, named: &Named) -> bool
    ensures { result ≡ has_name name.now named.now }
{
    named.name.bytes() == name.bytes()
}
