// What each kind of step tells its seat.
use crate::view::{Booked, View};
use atomic_table::{Join, Play, Split};
use std::marker::PhantomData;

/// A new chair, made by the first one.
pub(crate) struct Make;

impl<A, F> Split<View<A, F>> for Make {
    ghost use Rattle.desk_rule.specs.Steps.{counted, new_chair};

    ghost left = { counted };

    ghost right = { new_chair };
}

/// A try to take the value, by a compare-exchange from 0.
pub(crate) struct Take<T> {
    of: PhantomData<T>,
}

impl<T: Booked> Play<Option<T>, View<T::Act, T::Fixed>> for Take<T> {
    ghost use Rattle.desk_rule.specs.Steps.{Tried};

    ghost then = { Tried T.history T.fixed };
}

/// The value goes home, by a store of 0.
pub(crate) struct Put<T> {
    of: PhantomData<T>,
}

impl<T: Booked> Play<Option<T>, View<T::Act, T::Fixed>> for Put<T> {
    ghost use Rattle.desk_rule.specs.Steps.{PutBack};

    ghost then = { PutBack T.history };
}

/// A note, with all that the chair has seen.
pub(crate) struct Tell;

impl<A, F> Split<View<A, F>> for Tell {
    ghost use Rattle.desk_rule.specs.Steps.{told};

    ghost left = { λ v. v };

    ghost right = { told };
}

/// The records of another seat, a note or a chair, are added to one's own.
pub(crate) struct Merge;

impl<A, F> Join<View<A, F>> for Merge {
    ghost use Rattle.desk_rule.specs.Steps.{merged, spent};

    ghost both = { merged };

    ghost spent = { spent };
}

/// What a note told is seen, by a load after the note was joined.
pub(crate) struct Settle;

impl<S, A, F> Play<S, View<A, F>> for Settle {
    ghost use Rattle.desk_rule.specs.Steps.{Settled};

    ghost then = { Settled };
}
