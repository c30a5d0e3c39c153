// Why a program has no answer.

use std::alloc::AllocError;

/// Why a program has no answer to its words and bytes. Each has a line for err, and a status.
#[derive(Clone, Copy, Debug, PartialEq, Eq)]
pub enum Stop {
    /// The words aren't accepted: status 2.
    Usage,
    /// The source failed: status 3.
    ReadFault,
    /// The source held more bytes than the command takes: status 8.
    TooLong,
    /// Memory was refused: status 5.
    Memory,
}

impl From<AllocError> for Stop {
    ghost use Rattle.std.specs.Prelude.{◌≡◌};
    ghost use Rattle.top_calls.specs.declared.stop.Stop.TheVariants.{Memory};

    ghost from_gives = { λ _ stop. stop ≡ Memory };

    fn from(_: AllocError) -> Stop {
        Stop::Memory
    }
}
