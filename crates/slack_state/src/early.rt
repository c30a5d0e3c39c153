// How a part of a kernel ends before its end.

use rtio_types::Exc;
use slack_meaning::{Span, Stopped};
use std::alloc::{AllocError, AllocFailed};

/// Why a part of a kernel ends early.
#[derive(Clone, Copy, Debug, PartialEq, Eq)]
pub enum Reason {
    /// A `break` of the loop around it.
    Break,
    /// A `continue` of the loop around it.
    Continue,
    /// A `return` with this value, 0 where it has none.
    Return(Span),
    /// An exception.
    Raised(Exc),
    /// A unit was wanted and none was left.
    Budget,
    /// The verdict stands.
    Decided(Stopped),
}

/// How the run of a part that takes memory ends before its end.
#[derive(Clone, Copy, Debug, PartialEq, Eq)]
pub enum Early {
    /// The part ends so.
    Ended(Reason),
    /// Want of memory.
    Memory,
}

impl From<Reason> for Early {
    ghost use Rattle.std.specs.Prelude.{◌≡◌};
    ghost use Rattle.slack_state.specs.declared.early.Early.TheVariants.{Ended};

    ghost from_gives = { λ reason end. end ≡ Ended reason };

    fn from(reason: Reason) -> Early {
        Early::Ended(reason)
    }
}

impl From<AllocError> for Early {
    ghost use Rattle.std.specs.Prelude.{◌≡◌};
    ghost use Rattle.slack_state.specs.declared.early.Early.TheVariants.{Memory};

    ghost from_gives = { λ _ end. end ≡ Memory };

    fn from(_: AllocError) -> Early {
        Early::Memory
    }
}

impl<T: Drop> From<AllocFailed<T>> for Early {
    ghost use Rattle.std.specs.Prelude.{◌≡◌};
    ghost use Rattle.slack_state.specs.declared.early.Early.TheVariants.{Memory};

    ghost from_gives = { λ _ end. end ≡ Memory };

    fn from(_: AllocFailed<T>) -> Early {
        Early::Memory
    }
}
