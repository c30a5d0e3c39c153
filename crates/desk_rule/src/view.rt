// What can be booked at a desk, and what a seat at its table knows.
ghost use Rattle.std.specs.Prelude.{ℕ, List};

use std::collections::LinkedList;

/// A value that may lie on a desk: it has a history, a list of the acts of numbered chairs, and a part that no act changes.
///
/// Both are meanings alone: nothing is stored or computed for them.
pub trait Booked {
    /// What an entry of the history says.
    type Act;

    /// What the part that stays is seen as, plain data.
    type Fixed;

    /// Each act with the number of its chair, in order.
    ghost history: { Self → List (ℕ × Self.Act) };

    /// The part that stays.
    ghost fixed: { Self → Self.Fixed };
}

/// What is known of one chair, or was told by one. It exists in proofs alone: no value of it is made.
pub struct Record<A> {
    /// The chair's number. What was told has none.
    pub number: Option<u32>,
    /// The history as far as it was seen.
    pub seen: LinkedList<(u32, A)>,
    /// What the chair put, in order.
    pub own: LinkedList<A>,
    /// The numbers of the holders that its lost tries read.
    pub lost: LinkedList<u32>,
    /// The chair has taken the value.
    pub won: bool,
    /// Of chair 0: how many chairs were made.
    pub made: u32,
}

/// What a seat knows. It exists in proofs alone: no value of it is made.
pub struct View<A, F> {
    /// The chair's own record first. A note has one without a number, a seat that was joined away none.
    pub records: LinkedList<Record<A>>,
    /// The seat holds the value.
    pub pass: bool,
    /// The fixed part of the value that the desk was opened with. A seat that was joined away has none.
    pub fixed: Option<F>,
}
