// Why nothing is read.

use std::alloc::{AllocError, AllocFailed};

/// Why words or values give nothing.
#[derive(Clone, Copy, Debug, PartialEq, Eq)]
pub enum ValueEnd {
    /// They aren't of the form that is asked.
    Refused,
    /// Want of memory.
    Memory,
}

impl From<AllocError> for ValueEnd {
    ghost use Rattle.std.specs.Prelude.{◌≡◌};
    ghost use Rattle.option_values.specs.declared.end.ValueEnd.TheVariants.{Memory};

    ghost from_gives = { λ _ end. end ≡ Memory };

    fn from(_: AllocError) -> ValueEnd {
        ValueEnd::Memory
    }
}

impl<T: Drop> From<AllocFailed<T>> for ValueEnd {
    ghost use Rattle.std.specs.Prelude.{◌≡◌};
    ghost use Rattle.option_values.specs.declared.end.ValueEnd.TheVariants.{Memory};

    ghost from_gives = { λ _ end. end ≡ Memory };

    fn from(_: AllocFailed<T>) -> ValueEnd {
        ValueEnd::Memory
    }
}
