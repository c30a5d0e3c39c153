// The place of a run's end.

ghost use Rattle.std.specs.Prelude.{◌≡◌, ◌<◌, ◌-◌, ◌^◌, ◌==◌, List, IfOk, None, true, false, if◌then◌else◌};
ghost use Rattle.rtio_types.specs.declared.request.Reply.{Reply};
ghost use Rattle.core_isa.specs.Runs.{Ran, Runs};
ghost use Rattle.core_cpu.specs.Moments.{is_asking};
ghost use Rattle.core_cpu.specs.Standing.{Start as Beginning};
ghost use Rattle.kernel_places.specs.Behind.{IsBehind};
ghost use Rattle.kernel_places.specs.Ends.{StopsFrom, line_at};

use crate::place::{Place, here};
use core_cpu::Cpu;
use std::alloc::{AllocError, Global};

/// The line of the instruction at a place, or 0 where it has none.
pub fn line_at(lines: &[u32], place: u32) -> u32
    ensures { result ≡ line_at lines.now place }
{
    lines.get(place as usize).copied().unwrap_or(0)
}

// This place, if its instruction has a line, and else the one that was found before.
fn last_with_line(lines: &[u32], place: Place, before: Option<Place>) -> Option<Place>
    ensures { result ≡ (if line_at lines.now place.at == 0 then before else Some place) }
{
    if line_at(lines, place.at) == 0 {
        before
    } else {
        Some(place)
    }
}

/// The place at which a run stops that stands behind its last reply, if it is sought. The request that got the reply was
/// asked at `asked`.
pub fn end_if_sought(
    alloc: Global,
    cpu: &mut Cpu<'_>,
    lines: &[u32],
    asked: Option<Place>,
    seeks_end: bool,
) -> Result<Option<Place>, AllocError>
    requires { is_asking cpu.old.phase ≡ false }
    ensures sought { IfOk result (λ end. seeks_end ≡ true →
        (start : Beginning) (replies : List Reply) (ran : Ran) → IsBehind start replies asked cpu.old →
        Runs cpu.old.code start.function start.args start.cursor start.units replies ran → ran.count < 2 ^ 64 - 1 →
        StopsFrom cpu.old.code lines.now start replies asked end) }
    ensures unsought { IfOk result (λ end. seeks_end ≡ false → end ≡ None) }
{
    if seeks_end {
        place_of_end(alloc, cpu, lines, asked)
    } else {
        Ok(None)
    }
}

// The same where it is sought: the run goes on instruction by instruction, since the place at which an exception was raised
// is known only before the instruction.
fn place_of_end(
    alloc: Global,
    cpu: &mut Cpu<'_>,
    lines: &[u32],
    asked: Option<Place>,
) -> Result<Option<Place>, AllocError>
    requires { is_asking cpu.old.phase ≡ false }
    ensures { IfOk result (λ end. (start : Beginning) (replies : List Reply) (ran : Ran) →
        IsBehind start replies asked cpu.old →
        Runs cpu.old.code start.function start.args start.cursor start.units replies ran → ran.count < 2 ^ 64 - 1 →
        StopsFrom cpu.old.code lines.now start replies asked end) }
{
    let mut end = match asked {
        Some(place) => last_with_line(lines, place, None),
        None => None,
    };
    if cpu.plays() {
        drop(cpu.play_on());
    }
    while cpu.ready() {
        end = last_with_line(lines, here(cpu), end);
        drop(cpu.step(alloc)?);
    }
    Ok(end)
}
