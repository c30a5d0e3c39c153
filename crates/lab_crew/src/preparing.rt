// All that a crew needs, before it begins.

ghost use Rattle.std.specs.Prelude.{◌≡◌, ◌<◌, IfOk, IsTrue};
ghost use Rattle.exp_model.specs.Sessions.{is_session};
ghost use Rattle.sched_core.specs.Scheds.{new_sched};
ghost use Rattle.lab_workers.specs.Settings.{new_cores};
ghost use Rattle.lab_crew.specs.Rooms.{IsPrepared};

use crate::dealing::seat_workers;
use crate::member::{Member, Room};
use exp_model::Session;
use lab_desks::{Chairs, open_desks};
use lab_kits::Kit;
use lab_workers::Desks;
use rtio_core::Core;
use sched_core::Sched;
use std::alloc::{AllocError, Global};

/// A crew at its desks, with room for what it leaves.
#[derive(Drop)]
pub(crate) struct Prepared {
    pub(crate) desks: Desks,
    pub(crate) crew: Vec<Member>,
    pub(crate) room: Room,
}

/// Opens the desks and seats the workers. What is allocated here serves until all desks are closed.
pub(crate) fn prepare(
    alloc: Global,
    session: &Session,
    sched: Sched<Kit>,
    cores: Vec<Core>,
    workers: u32,
) -> Result<Prepared, AllocError>
    requires session { IsTrue (is_session session.now) }
    requires workers { 0 < workers }
    requires sched { sched ≡ new_sched session.now }
    requires cores { cores.items ≡ new_cores session.now }
    ensures { IfOk result (λ prepared. IsPrepared session.now workers prepared) }
{
    let (desks, chairs) = open_desks(alloc, session, sched, cores, workers)?;
    let Chairs {
        mut scheds,
        mut columns,
    } = chairs;
    let crew = seat_workers(alloc, &desks, &mut scheds, columns.as_mut_slice())?;
    let room = Room {
        scheds,
        rows: Vec::with_capacity(alloc, crew.len())?,
        columns,
        cores: Vec::with_capacity(alloc, desks.cores.len())?,
    };
    Ok(Prepared { desks, crew, room })
}
