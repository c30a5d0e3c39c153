// The places of a session's requests, found by running its code again under the replies that the history has.

ghost use Rattle.std.specs.Prelude.{◌≡◌, ◌++◌, ◌∷◌, [], List, IfOk, false};
ghost use Rattle.rtio_types.specs.declared.request.Request.{Request};
ghost use Rattle.rtio_types.specs.declared.request.Reply.{Reply};
ghost use Rattle.core_cpu.specs.Moments.{is_asking};
ghost use Rattle.core_cpu.specs.Standing.{Stands, Start as Beginning};
ghost use Rattle.core_session.specs.Sessions.{replies_of};
ghost use Rattle.kernel_places.specs.Behind.{AsksAtCount, IsBehind};
ghost use Rattle.kernel_places.specs.Ends.{last_of};
ghost use Rattle.kernel_places.specs.Places.{AreAskedAt, Asks, AsksEach, IsAtBeginning, answered_in};

use crate::place::{Place, here};
use core_cpu::{Cpu, Stop};
use rtio_core::{Act, Entry};
use rtio_types::Reply;
use std::alloc::{AllocError, Global};

/// The places at which a run that has begun no instruction asks the answered requests among these entries, in order. It
/// then stands behind the last reply.
pub fn places_asked(
    alloc: Global,
    cpu: &mut Cpu<'_>,
    session: &[Entry],
) -> Result<Vec<Place>, AllocError>
    requires { (start : Beginning) × IsAtBeginning start cpu.old
        × AsksEach cpu.old.code start [] (answered_in session.now) }
    ensures code { IfOk result (λ places. cpu.new.code ≡ cpu.old.code) }
    ensures idle { IfOk result (λ places. is_asking cpu.new.phase ≡ false) }
    ensures asked { IfOk result (λ places. (start : Beginning) → IsAtBeginning start cpu.old →
        AsksEach cpu.old.code start [] (answered_in session.now) →
        AreAskedAt cpu.old.code start [] (answered_in session.now) places.items) }
    ensures behind { IfOk result (λ places. (start : Beginning) → IsAtBeginning start cpu.old →
        AsksEach cpu.old.code start [] (answered_in session.now) →
        IsBehind start (replies_of (answered_in session.now)) (last_of places.items) cpu.new) }
{
    let mut places = Vec::new(alloc);
    for entry in session.iter() {
        match &entry.act {
            Act::Asked { reply, .. } => {
                let place = next_place(alloc, cpu, reply)?;
                places.push(place)?;
            }
            Act::Start { .. } => {}
            Act::End { .. } => {}
        }
    }
    Ok(places)
}

// The place at which the run asks next; it gets the reply.
fn next_place(alloc: Global, cpu: &mut Cpu<'_>, reply: &Reply) -> Result<Place, AllocError>
    requires idle { is_asking cpu.old.phase ≡ false }
    requires asks { (start : Beginning) × (asked : List Request) × (request : Request) × (replies : List Reply)
        × Stands start asked replies cpu.old × Asks cpu.old.code start replies (asked ++ request ∷ []) }
    ensures code { cpu.new.code ≡ cpu.old.code }
    ensures idle { IfOk result (λ place. is_asking cpu.new.phase ≡ false) }
    ensures place { IfOk result (λ place.
        (start : Beginning) (asked : List Request) (request : Request) (replies : List Reply) →
        Stands start asked replies cpu.old → Asks cpu.old.code start replies (asked ++ request ∷ []) →
        AsksAtCount cpu.old.code start replies (asked ++ request ∷ []) place cpu.new.machine.steps
        × Stands start (asked ++ request ∷ []) (replies ++ reply.now ∷ []) cpu.new) }
{
    match cpu.advance(alloc)? {
        Stop::Ask(_) => {
            let place = here(cpu);
            cpu.reply(reply.copy(alloc)?);
            Ok(place)
        }
        Stop::Ended(_) => unreachable!(),
    }
}
