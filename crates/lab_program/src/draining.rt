// A core that goes on until it is stopped, and what is told of it.

ghost use Rattle.std.specs.Prelude.{◌≡◌, None, option_map, string_bytes};
ghost use Rattle.rtio_core.specs.Core.{IsCore};
ghost use Rattle.rtio_core.specs.Entries.{open_session};
ghost use Rattle.core_session.specs.Timed.{drained};
ghost use Rattle.lab_program.specs.Telling.{IsTold};

use core_session::drain_core;
use lab_report::core_lines;
use rtio_core::Core;
use std::alloc::Global;

/// Lets the core of a pipeline, on which no session is open, go on until it is stopped, and gives its lines, if memory suffices.
pub fn lines_of(alloc: Global, pipeline: u64, core: Core) -> Option<String>
    requires { open_session core.history ≡ None }
    ensures { IsTold pipeline core (option_map string_bytes result) }
{
    let mut core = core;
    drain(&mut core);
    core_lines(alloc, pipeline, &core).ok()
}

// Lets it go on until it is stopped.
fn drain(core: &mut Core)
    requires { open_session core.old.history ≡ None }
    ensures value { core.new ≡ drained core.old }
    ensures lawful { IsCore core.new }
    ensures idle { core.new.waiting ≡ None }
{
    drain_core(core);
    let _known = core.history();
    // No request waits where no session is open.
    let _waits = core.waiting();
}
