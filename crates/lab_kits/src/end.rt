// Why there is no kit.

use kern_accepted::KernelEnd;

/// Why a run has no kit.
#[derive(Clone, Copy, Debug, PartialEq, Eq)]
pub enum PrepareEnd {
    /// Its source is no accepted kernel's text, or a kernel step calls no function of it with arguments that fit.
    Refused,
    /// Memory ran out.
    Memory,
}

impl From<KernelEnd> for PrepareEnd {
    ghost use Rattle.std.specs.Prelude.{◌≡◌};
    ghost use Rattle.lab_kits.specs.Ends.{end_of_kernel};

    ghost from_gives = { λ end given. given ≡ end_of_kernel end };

    fn from(end: KernelEnd) -> PrepareEnd {
        match end {
            KernelEnd::Refused(_) => PrepareEnd::Refused,
            KernelEnd::Memory => PrepareEnd::Memory,
        }
    }
}
