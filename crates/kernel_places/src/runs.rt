// The places of a whole run.

ghost use Rattle.std.specs.Prelude.{◌≡◌, ◌<◌, ◌-◌, ◌^◌, [], IfOk, None, true, false};
ghost use Rattle.core_isa.specs.Runs.{Ran, Runs};
ghost use Rattle.core_cpu.specs.Standing.{Start as Beginning};
ghost use Rattle.core_session.specs.Sessions.{replies_of};
ghost use Rattle.kernel_places.specs.Ends.{StopsFrom, last_of};
ghost use Rattle.kernel_places.specs.Places.{AreAskedAt, AsksEach, IsAtBeginning, answered_in};

use crate::ends::end_if_sought;
use crate::place::Place;
use crate::places::places_asked;
use core_cpu::Cpu;
use rtio_core::Entry;
use std::alloc::{AllocError, Global};

/// Where a run asked its requests, and where it stopped.
#[derive(Debug, Drop)]
pub struct RunPlaces {
    /// The places of its answered requests, in the order in which it asked them.
    pub asked: Vec<Place>,
    /// The place of the last instruction with a line that it began: where an exception was raised first, where no unit
    /// was left, where it asked for what wasn't decided at the horizon, or where it returned. None where it wasn't sought,
    /// and where no instruction has a line from that of the last answered request on.
    pub end: Option<Place>,
}

/// Runs code again from its beginning, under the replies that these entries have, and tells the places of its answered
/// requests, and that of its end if it is sought, which takes the longer the more instructions follow the last reply.
/// `lines` are the lines of the code's instructions, by their places, with 0 for those that only hand an exception on. The
/// only error is want of memory.
pub fn places_of_run(
    alloc: Global,
    cpu: Cpu<'_>,
    session: &[Entry],
    lines: &[u32],
    seeks_end: bool,
) -> Result<RunPlaces, AllocError>
    // The run asks each of the answered requests, as that of every session does.
    requires { (start : Beginning) × IsAtBeginning start cpu
        × AsksEach cpu.code start [] (answered_in session.now) }
    ensures asked { IfOk result (λ places. (start : Beginning) → IsAtBeginning start cpu.entry →
        AsksEach cpu.entry.code start [] (answered_in session.now) →
        AreAskedAt cpu.entry.code start [] (answered_in session.now) places.asked.items) }
    // It tells where the run stopped, if that is sought and the count of its instructions didn't come to its end.
    ensures end { IfOk result (λ places. seeks_end ≡ true → (start : Beginning) (ran : Ran) → IsAtBeginning start cpu.entry →
        AsksEach cpu.entry.code start [] (answered_in session.now) →
        let replies = replies_of (answered_in session.now) in
        Runs cpu.entry.code start.function start.args start.cursor start.units replies ran → ran.count < 2 ^ 64 - 1 →
        StopsFrom cpu.entry.code lines.now start replies (last_of places.asked.items) places.end) }
    ensures unsought { IfOk result (λ places. seeks_end ≡ false → places.end ≡ None) }
{
    let mut cpu = cpu;
    let asked = places_asked(alloc, &mut cpu, session)?;
    let end = end_if_sought(alloc, &mut cpu, lines, asked.last().copied(), seeks_end)?;
    Ok(RunPlaces { asked, end })
}
