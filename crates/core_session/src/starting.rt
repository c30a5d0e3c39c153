// How a session starts on a core that is free.

ghost use Rattle.std.specs.Prelude.{◌≡◌, IfOk, None, OnErr, OnOk};
ghost use Rattle.rtio_core.specs.Calls.{started};
ghost use Rattle.rtio_core.specs.Entries.{last_cursor, open_session};

use rtio_core::{Core, StartEnd, StartOf};
use std::alloc::{AllocError, Global};

/// Starts a session of chair `who`, where none is open, and answers its cursor (mu). The only error is want of memory.
pub fn start_free(alloc: Global, core: &mut Core, who: u32, of: StartOf) -> Result<i64, AllocError>
    requires { open_session core.old.history ≡ None }
    ensures cursor { IfOk result (λ cursor. cursor ≡ last_cursor core.old.history) }
    ensures ok { OnOk result (core.new ≡ started core.old who of (last_cursor core.old.history)) }
    ensures err { OnErr result (core.new ≡ core.old) }
{
    match core.start(alloc, who, of) {
        Ok(cursor) => Ok(cursor),
        Err(StartEnd::Memory) => Err(AllocError),
        Err(StartEnd::Busy { .. }) => unreachable!(),
    }
}
