// Workers, each with a chair at every desk.

ghost use Rattle.std.specs.Prelude.{◌≡◌, [], IfOk, length, map, vec_capacity, All};
ghost use Rattle.lab_desks.specs.Columns.{HasRoom};
ghost use Rattle.lab_desks.specs.Seats.{AreNewChairs};
ghost use Rattle.lab_crew.specs.Crews.{new_workers};

use crate::member::Member;
use desk::Chair;
use lab_desks::last_of_each;
use lab_kits::Kit;
use lab_workers::{Desks, Worker};
use rtio_core::Core;
use sched_core::Sched;
use std::alloc::{AllocError, Global};

/// Gives each worker the chairs with its number, one of each desk. The room of the chairs stays.
pub(crate) fn seat_workers(
    alloc: Global,
    desks: &Desks,
    scheds: &mut Vec<Chair<Sched<Kit>>>,
    columns: &mut [Vec<Chair<Core>>],
) -> Result<Vec<Member>, AllocError>
    requires { AreNewChairs (length scheds.old.items) desks.now scheds.old.items columns.old }
    ensures crew { IfOk result (λ crew. map (λ member. member.worker) crew.items ≡ new_workers desks.now (length scheds.old.items)) }
    ensures scheds { IfOk result (λ _. HasRoom (length scheds.old.items) scheds.new) }
    ensures columns { IfOk result (λ _. All (HasRoom (length scheds.old.items)) columns.new) }
{
    let mut crew = Vec::with_capacity(alloc, scheds.len())?;
    while let Some(sched) = scheds.pop() {
        let mut cores = Vec::with_capacity(alloc, columns.len())?;
        last_of_each(columns, &mut cores);
        let number = sched.number();
        crew.push(Member {
            worker: Worker::new(number, sched, cores),
            end: None,
        })?;
    }
    Ok(crew)
}
