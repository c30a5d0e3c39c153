// What the takings of a chair found.
ghost use Rattle.std.specs.Prelude.{◌≡◌, [], ◌∷◌, ◌++◌};

use desk_rule::Booked;
use std::marker::Model;
use std::mem;
use std::snapshot::Snapshot;

/// The takings of a chair. Contracts see them as the history that each found, in order. They have no bytes.
#[derive(Drop)]
pub(crate) struct Takings<T: Booked> {
    found: Snapshot<Found<T>>,
}

impl<T: Booked> Model for Takings<T> {
    ghost use Rattle.std.specs.Prelude.{ℕ, List};

    ghost Value = { List (List (ℕ × T.Act)) };

    ghost use Rattle.desk.specs.Takings.{histories_found};

    ghost view = { λ t. histories_found T.history t.found.value };
}

/// The value that each taking found, with all before it.
#[derive(Drop)]
pub(crate) enum Found<T> {
    Nothing,
    After {
        before: Snapshot<Found<T>>,
        value: Snapshot<T>,
    },
}

impl<T: Booked> Takings<T> {
    /// None yet.
    pub(crate) fn none() -> Takings<T>
        ensures { result ≡ [] }
    {
        Takings {
            found: Snapshot::of(&Found::Nothing),
        }
    }

    /// One taking more, which found this value.
    pub(crate) fn add(&mut self, value: &T)
        ensures { self.new ≡ self.old ++ T.history value.now ∷ [] }
    {
        let before = mem::replace(&mut self.found, Snapshot::of(&Found::Nothing));
        let found = Found::After {
            before,
            value: Snapshot::of(value),
        };
        self.found = Snapshot::of(&found);
    }
}
