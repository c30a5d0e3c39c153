// The kinds of the lines of a log.

ghost use Rattle.std.specs.Prelude.{◌≡◌};
ghost use Rattle.rtio_log.specs.Kinds.{is_kind};

use crate::LogKind;

/// Whether two kinds are the same.
pub fn is_kind(kind: LogKind, other: LogKind) -> bool
    ensures { result ≡ is_kind kind other }
{
    kind == other
}
