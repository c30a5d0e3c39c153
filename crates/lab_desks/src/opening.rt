// Desks for a crew, each with a chair for every worker.

ghost use Rattle.std.specs.Prelude.{◌≡◌, [], ◌<◌, IfOk, IsTrue, map, All};
ghost use Rattle.std.specs.List.{AllZip};
ghost use Rattle.exp_model.specs.Sessions.{is_session};
ghost use Rattle.sched_core.specs.Scheds.{new_sched};
ghost use Rattle.lab_ties.specs.Settings.{new_cores};
ghost use Rattle.lab_desks.specs.Columns.{IsDeskOf, columns_of};
ghost use Rattle.lab_desks.specs.Seats.{AreNewChairs, AreSetFor};

use desk::{Chair, Desk};
use exp_model::Session;
use lab_kits::Kit;
use rtio_core::Core;
use sched_core::Sched;
use std::alloc::{AllocError, Global};
use worker_desks::Desks;

/// The chairs of all desks.
#[derive(Drop)]
pub struct Chairs {
    /// Those of the scheduler's.
    pub scheds: Vec<Chair<Sched<Kit>>>,
    /// Those of each core's, by pipeline.
    pub columns: Vec<Vec<Chair<Core>>>,
}

// A desk for each core, and the chairs of each desk.
fn open_cores(
    alloc: Global,
    cores: Vec<Core>,
    workers: u32,
) -> Result<(Vec<Desk<Core>>, Vec<Vec<Chair<Core>>>), AllocError>
    requires workers { 0 < workers }
    requires new { All (λ core. core.history ≡ []) cores.items }
    ensures desks { IfOk result (λ opened. AllZip (IsDeskOf workers) cores.items opened.0.items) }
    ensures columns { IfOk result (λ opened. map (λ column. column.items) opened.1.items ≡ columns_of workers opened.0.items) }
{
    let mut desks = Vec::with_capacity(alloc, cores.len())?;
    let mut columns = Vec::with_capacity(alloc, cores.len())?;
    for core in cores {
        let Ok((desk, chairs)) = Desk::open(alloc, core, workers) else {
            return Err(AllocError);
        };
        desks.push(desk)?;
        columns.push(chairs)?;
    }
    Ok((desks, columns))
}

/// Opens a desk for the scheduler of a session and one for each core, with a chair for each of so many workers, at least one. The
/// scheduler is new and of this session, and the cores are new, one for each pipeline with its settings. The only error is want of
/// memory.
pub fn open_desks(
    alloc: Global,
    session: &Session,
    sched: Sched<Kit>,
    cores: Vec<Core>,
    workers: u32,
) -> Result<(Desks, Chairs), AllocError>
    requires session { IsTrue (is_session session.now) }
    requires workers { 0 < workers }
    requires sched { sched ≡ new_sched session.now }
    requires cores { cores.items ≡ new_cores session.now }
    ensures session { IfOk result (λ opened. opened.0.session ≡ session.now) }
    ensures desks { IfOk result (λ opened. AreSetFor workers opened.0) }
    ensures chairs { IfOk result (λ opened. AreNewChairs workers opened.0 opened.1.scheds.items opened.1.columns.items) }
{
    let session = session.copy(alloc)?;
    let Ok((sched, scheds)) = Desk::open(alloc, sched, workers) else {
        return Err(AllocError);
    };
    let (cores, columns) = open_cores(alloc, cores, workers)?;
    let desks = Desks {
        sched,
        cores,
        session,
    };
    Ok((desks, Chairs { scheds, columns }))
}
