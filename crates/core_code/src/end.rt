// Why there is no code.

use std::alloc::AllocError;

/// Why a checked program has no code.
#[derive(Clone, Copy, Debug, PartialEq, Eq)]
pub enum CodeEnd {
    /// It has more than 16,384 nodes: so many.
    TooLarge { nodes: u64 },
    /// Memory ran out.
    Memory,
}

impl From<AllocError> for CodeEnd {
    ghost use Rattle.std.specs.Prelude.{◌≡◌};
    ghost use Rattle.core_code.specs.declared.end.CodeEnd.TheVariants.{Memory};

    ghost from_gives = { λ _ end. end ≡ Memory };

    fn from(_: AllocError) -> CodeEnd {
        CodeEnd::Memory
    }
}
