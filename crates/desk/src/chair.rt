// What a thread has of a desk: its chair, the value while it holds it, and notes of what was seen.
ghost use Rattle.std.specs.Prelude.{◌≡◌};

use crate::boxed::Boxed;
use crate::takings::Takings;
use desk_rule::{Booked, DeskSeat};
use std::marker::Model;
use std::snapshot::Snapshot;

/// A place at a desk, with a number of its own. A thread needs one to use the desk.
///
/// Contracts see a chair as its desk, its number, what it has seen of the history, what it put, the numbers that its
/// lost tries read, what its takings found, and whether it holds the value. A chair that is dropped can't be closed, nor
/// its desk then.
#[derive(Drop)]
pub struct Chair<T: Booked> {
    pub(crate) number: u32,
    pub(crate) seat: DeskSeat<Boxed<T>>,
    pub(crate) takings: Takings<Boxed<T>>,
}

impl<T: Booked> Model for Chair<T> {
    ghost use Rattle.desk.specs.Seated.{Seated};

    ghost Value = { Seated T.Act T.Fixed };

    ghost use Rattle.desk.specs.Chairs.{seated, IsSeated};

    ghost view = { seated };

    ghost invariant = { IsSeated };
}

/// The value, while a chair holds it. It has to be put back: a `Held` can't be dropped.
pub struct Held<T: Booked> {
    pub(crate) value: Boxed<T>,
    /// The chair, as the taking left it.
    pub(crate) by: Snapshot<Chair<T>>,
}

/// What a chair had seen, for another chair of the same desk.
#[derive(Drop)]
pub struct Note<T: Booked> {
    pub(crate) seat: DeskSeat<Boxed<T>>,
}

impl<T: Booked> Model for Note<T> {
    ghost use Rattle.desk.specs.Seated.{Telling};

    ghost Value = { Telling T.Act T.Fixed };

    ghost use Rattle.desk.specs.Notes.{telling, IsTelling};

    ghost view = { telling };

    ghost invariant = { IsTelling };
}

/// The answer of a lost try: the value is taken.
#[derive(Drop, Clone, Copy, PartialEq, Eq, Debug)]
pub struct Taken {
    /// The number of another chair, which the try read in the value's place.
    pub by: u32,
}

impl<T: Booked> Chair<T> {
    /// The chair's number, from 0.
    pub fn number(&self) -> u32
        ensures { result ≡ self.now.number }
    {
        self.number
    }
}
