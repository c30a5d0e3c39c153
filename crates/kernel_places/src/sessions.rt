// The places of a session.

ghost use Rattle.std.specs.Prelude.{◌≡◌, ℕ, ◌<◌, ◌-◌, ◌^◌, [], List, IfOk, None, true, false};
ghost use Rattle.core_cpu.specs.Standing.{HasEntry};
ghost use Rattle.core_session.specs.Sessions.{Answered, replies_of};
ghost use Rattle.kernel_places.specs.Ends.{StopsFrom, last_of};
ghost use Rattle.kernel_places.specs.OfSessions.{AreOfSession, beginning};
ghost use Rattle.kernel_places.specs.Places.{AreAskedAt};

use crate::runs::{RunPlaces, places_of_run};
use core_cpu::Cpu;
use core_image::Verified;
use rtio_core::{Entry, StartOf};
use std::alloc::{AllocError, Global};

/// The places at which a session's run of accepted code asked its answered requests, and the one from which it ended, if that
/// is sought. It is run again for that, from its cursor (mu) and with its units, under the replies that the session's entries
/// have. `lines` are the lines of the code's instructions, by their places, with 0 for those that only hand an exception on.
/// The only error is want of memory.
pub fn places_of_session(
    alloc: Global,
    code: &Verified,
    of: &StartOf,
    cursor: i64,
    units: u32,
    session: &[Entry],
    lines: &[u32],
    seeks_end: bool,
) -> Result<RunPlaces, AllocError>
    requires entry { HasEntry code.now of.now.function of.now.args }
    requires session { (asked : List Answered) × (count : ℕ)
        × AreOfSession code.now units of.now cursor session.now asked count }
    ensures asked { IfOk result (λ places. (asked : List Answered) (count : ℕ) →
        AreOfSession code.now units of.now cursor session.now asked count →
        AreAskedAt code.now (beginning of.now cursor units) [] asked places.asked.items) }
    // It tells where the run stopped, if that is sought and the count of its instructions didn't come to its end.
    ensures end { IfOk result (λ places. seeks_end ≡ true → (asked : List Answered) (count : ℕ) →
        AreOfSession code.now units of.now cursor session.now asked count → count < 2 ^ 64 - 1 →
        StopsFrom code.now lines.now (beginning of.now cursor units) (replies_of asked) (last_of places.asked.items) places.end) }
    ensures unsought { IfOk result (λ places. seeks_end ≡ false → places.end ≡ None) }
{
    let _accepted = code.code();
    let cpu = Cpu::boot(alloc, code, of.function, of.args.items(), cursor, units)?;
    let places = places_of_run(alloc, cpu, session, lines, seeks_end)?;
    Ok(places)
}
