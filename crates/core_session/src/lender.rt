// Who lends a core.

ghost use Rattle.std.specs.Prelude.{◌≡◌, ◌+◌, ℕ, ℤ, List, [], IfOk, IfSome, IsSome, IsTrue, OnErr};
ghost use Rattle.rtio_types.specs.declared.outcome.Outcome.{Outcome};
ghost use Rattle.rtio_types.specs.declared.request.Request.{Request};
ghost use Rattle.rtio_types.specs.Requests.{fits_request, is_well_formed};
ghost use Rattle.core_session.specs.Sessions.{Answered};
ghost use Rattle.core_session.specs.Lending.{HasOpen, IsAskedSo, Opening, began};

use rtio_core::StartOf;
use rtio_types::{Outcome, Reply, Request};
use std::alloc::{AllocError, Global};

/// Lends a core to a session, from request to request: it may have the core for the whole session, or hold it at its desk for a
/// moment at a time. The only error is want of memory.
pub trait Lender {
    /// What has the core: the core itself, or a chair at its desk.
    type Place;

    /// What is kept beside it: the datasets that the session sets, or the steps of a schedule that are still to come.
    type Kept;

    /// A session may start.
    ghost may_start: { Self → (Self.Place × Self.Kept) → Type 0 };

    /// The session that began so is open, and has these answered requests.
    ghost is_open: { Self → Opening (Self.Place × Self.Kept) → List Answered → (Self.Place × Self.Kept) → Type 0 };

    /// It has ended with this outcome and cursor (mu).
    ghost has_ended: { Self → Opening (Self.Place × Self.Kept) → List Answered → Outcome → ℤ → (Self.Place × Self.Kept) → Type 0 };

    /// It has ended at the horizon with this cursor (mu), where this request isn't decided.
    ghost is_given_up: { Self → Opening (Self.Place × Self.Kept) → List Answered → Request → ℤ → (Self.Place × Self.Kept) → Type 0 };

    /// Want of memory has kept it from ending.
    ghost is_unended: { Self → Opening (Self.Place × Self.Kept) → List Answered → (Self.Place × Self.Kept) → Type 0 };

    /// Want of memory has kept its next request from being answered.
    ghost is_held_up: { Self → Opening (Self.Place × Self.Kept) → List Answered → Request → (Self.Place × Self.Kept) → Type 0 };

    /// Want of memory has kept a session from starting.
    ghost is_unstarted: { Self → (Self.Place × Self.Kept) → (Self.Place × Self.Kept) → Type 0 };

    /// How many entries of the core's history are known.
    ghost entries: { Self → (Self.Place × Self.Kept) → ℕ };

    /// Starts a session, and answers its cursor (mu).
    fn start(
        &self,
        alloc: Global,
        place: &mut Self::Place,
        kept: &mut Self::Kept,
        of: StartOf,
    ) -> Result<i64, AllocError>
        requires { may_start self.now (place.old, kept.old) }
        ensures started { IfOk result (λ cursor. is_open self.now (began (place.old, kept.old) of cursor) [] (place.new, kept.new)) }
        ensures err { OnErr result (is_unstarted self.now (place.old, kept.old) (place.new, kept.new)) };

    /// Asks a request of the open session until it is decided. None where it isn't decided at the horizon, and then the session has
    /// ended there with this cursor (mu).
    fn ask(
        &self,
        alloc: Global,
        place: &mut Self::Place,
        kept: &mut Self::Kept,
        request: Request,
        cursor: i64,
    ) -> Result<Option<Reply>, AllocError>
        requires open { HasOpen (is_open self.now) (place.old, kept.old) }
        requires formed { IsTrue (is_well_formed request) }
        ensures asked { IfOk result (λ reply. IsAskedSo (is_open self.now) (is_given_up self.now) (place.old, kept.old) request cursor reply (place.new, kept.new)) }
        ensures fits { IfOk result (λ reply. IfSome reply (λ r. IsTrue (fits_request request r))) }
        ensures more { IfOk result (λ reply. IsSome reply → entries self.now (place.new, kept.new) ≡ entries self.now (place.old, kept.old) + 1) }
        ensures err { OnErr result ((o : Opening (Self.Place × Self.Kept)) (asked : List Answered) → is_open self.now o asked (place.old, kept.old)
            → is_held_up self.now o asked request (place.new, kept.new)) };

    /// Ends the open session with this cursor (mu).
    fn end(
        &self,
        alloc: Global,
        place: &mut Self::Place,
        kept: &mut Self::Kept,
        outcome: Outcome,
        cursor: i64,
    ) -> Result<(), AllocError>
        requires { HasOpen (is_open self.now) (place.old, kept.old) }
        ensures ended { IfOk result (λ _. (o : Opening (Self.Place × Self.Kept)) (asked : List Answered) → is_open self.now o asked (place.old, kept.old)
            → has_ended self.now o asked outcome cursor (place.new, kept.new)) }
        ensures err { OnErr result ((o : Opening (Self.Place × Self.Kept)) (asked : List Answered) → is_open self.now o asked (place.old, kept.old)
            → is_unended self.now o asked (place.new, kept.new)) };
}
