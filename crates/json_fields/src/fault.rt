// What is wrong with a value, and where.

use crate::path::{Part, Path};
use std::alloc::{AllocError, AllocFailed, Global};

/// What is wrong with a field, or with an item of a list.
#[derive(Clone, Copy, Debug, PartialEq, Eq)]
pub enum FieldKind {
    /// It has to be there.
    Missing,
    /// The object has no such field.
    Unknown,
    /// The value is of another type; it is printed as `Type`.
    Shape,
    /// The number, the length or the spelling is out of range.
    Range,
    /// The list that the index goes into has no such place.
    Index,
    /// It comes before what stands ahead of it.
    Order,
}

/// Why a value isn't read.
#[derive(Debug, Drop)]
pub enum Stop {
    /// Its first fault, with the path from the value on.
    Fault { path: Path, kind: FieldKind },
    /// Want of memory.
    Memory,
}

impl From<AllocError> for Stop {
    ghost use Rattle.std.specs.Prelude.{◌≡◌};
    ghost use Rattle.json_fields.specs.declared.fault.Stop.TheVariants.{Memory};

    ghost from_gives = { λ _ stop. stop ≡ Memory };

    fn from(_: AllocError) -> Stop {
        Stop::Memory
    }
}

impl<T: Drop> From<AllocFailed<T>> for Stop {
    ghost use Rattle.std.specs.Prelude.{◌≡◌};
    ghost use Rattle.json_fields.specs.declared.fault.Stop.TheVariants.{Memory};

    ghost from_gives = { λ _ stop. stop ≡ Memory };

    fn from(_: AllocFailed<T>) -> Stop {
        Stop::Memory
    }
}

ghost use Rattle.std.specs.Prelude.{◌≡◌, []};
ghost use Rattle.json_fields.specs.Answers.{Gives, IsSettled};
ghost use Rattle.json_fields.specs.Readings.{Reading, demand, within};

/// A fault of the value itself.
pub fn fault_here(alloc: Global, kind: FieldKind) -> Stop
    ensures { result ≡ Stop.Fault [] kind }
{
    Stop::Fault {
        path: Path::new(alloc),
        kind,
    }
}

/// A fault of the value itself, unless the test holds.
pub fn demand(alloc: Global, test: bool, kind: FieldKind) -> Result<(), Stop>
    ensures read { Gives result (demand test kind) }
    ensures settled { IsSettled result }
{
    if test {
        Ok(())
    } else {
        Err(fault_here(alloc, kind))
    }
}

ghost use Rattle.json_fields.specs.declared.path.Part.TheVariants as P;

/// What was read of the value of a key, as seen from its object.
pub fn within_key<T: Drop>(alloc: Global, key: &str, outcome: Result<T, Stop>) -> Result<T, Stop>
    ensures { (reading : Reading T) → Gives outcome reading → Gives result (within (P.Key key.now) reading) }
{
    match outcome {
        Ok(read) => Ok(read),
        Err(Stop::Memory) => Err(Stop::Memory),
        Err(Stop::Fault { path, kind }) => {
            let part = Part::key(alloc, key)?;
            Err(Stop::Fault {
                path: path.behind(part)?,
                kind,
            })
        }
    }
}

/// What was read of an item, as seen from its list.
pub fn within_place<T: Drop>(place: usize, outcome: Result<T, Stop>) -> Result<T, Stop>
    ensures { (reading : Reading T) → Gives outcome reading → Gives result (within (P.Place place) reading) }
{
    match outcome {
        Ok(read) => Ok(read),
        Err(Stop::Memory) => Err(Stop::Memory),
        Err(Stop::Fault { path, kind }) => Err(Stop::Fault {
            path: path.behind(Part::Place(place as u64))?,
            kind,
        }),
    }
}
