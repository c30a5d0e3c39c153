// Desks that are closed behind a crew.

ghost use Rattle.std.specs.Prelude.{◌<◌, length, map};
ghost use Rattle.lab_workers.specs.Finished.{IsFinished};
ghost use Rattle.lab_desks.specs.Seats.{AreSetFor};
ghost use Rattle.lab_crew.specs.Crews.{IsCrewDone};
ghost use Rattle.lab_crew.specs.Rooms.{IsRoomFor};

use crate::gathering::gather;
use crate::member::{Member, Room};
use desk_kernels::open_sessions_were_open_before;
use lab_desks::{close_cores, close_sched};
use lab_kits::Kit;
use lab_workers::{Desks, judgements_last, ties_last};
use rtio_core::Core;
use sched_core::Sched;
use sched_laws::{a_run_in_flight_stands_by_its_job, what_is_over_stays_over};

/// Closes all desks behind a crew that has done all that there was to do, each with the chairs that its workers have there.
pub(crate) fn close_desks(desks: Desks, crew: Vec<Member>, room: Room) -> (Sched<Kit>, Vec<Core>)
    requires some { 0 < desks.sched.chairs }
    requires desks { AreSetFor desks.sched.chairs desks }
    requires crew { IsCrewDone desks.sched.chairs desks (map (λ member. member.worker) crew.items) }
    requires room { IsRoomFor (length crew.items) (length desks.cores.items) room }
    ensures { IsFinished desks.session desks.sched.chairs result.0 result.1.items }
{
    let Room {
        mut scheds,
        mut rows,
        columns,
        cores: room,
    } = room;
    gather(crew, &mut scheds, &mut rows);
    let Desks {
        sched,
        cores,
        session: _,
    } = desks;
    let sched = close_sched(sched, scheds);
    let cores = close_cores(cores, rows.as_mut_slice(), columns, room);
    ties_last();
    judgements_last();
    open_sessions_were_open_before();
    what_is_over_stays_over();
    a_run_in_flight_stands_by_its_job();
    (sched, cores)
}
