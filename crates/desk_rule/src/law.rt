// The rule over word, slot and all views.
use crate::view::{Booked, View};
use atomic_table::TableRule;
use std::marker::PhantomData;
use std::snapshot::Snapshot;

/// What a desk was opened with, which its table knows from then on.
#[derive(Drop)]
pub struct Opening<T> {
    /// The value that was given to `open`. It has no bytes here.
    pub first: Snapshot<T>,
    /// How many chairs there are to be.
    pub chairs: u32,
}

/// The rule of a desk for the value `T` (`Kept`). It is this project's own.
pub struct Law<T> {
    of: PhantomData<T>,
}

impl<T: Booked> TableRule<Option<T>, View<T::Act, T::Fixed>, Opening<T>> for Law<T> {
    ghost use Rattle.desk_rule.specs.Kept.{Kept, first_view};

    ghost holds = { λ opening. Kept T.history T.fixed opening.chairs (T.fixed opening.first.value) };

    ghost first = { λ opening. first_view (T.fixed opening.first.value) };
}
