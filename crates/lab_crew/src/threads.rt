// Workers in threads of their own.

ghost use Rattle.std.specs.Prelude.{◌≡◌, ◌<◌, ℕ, Some, IsTrue, All, length, slice_index_or};
ghost use Rattle.std.specs.List.{AllZip};
ghost use Rattle.lab_workers.specs.Workers.{AreDesksOf};
ghost use Rattle.lab_crew.specs.Crews.{HasWorked, MayWork};

use crate::member::Member;
use lab_kits::Gate;
use lab_workers::{Desks, WorkEnd};
use std::alloc::Global;
use std::sync::Wait;
use std::thread;
use std::thread::Threads;

// Each works until it ends.
fn work_in_threads<R: Threads + Wait + Sync, G: Gate + Sync>(
    rt: &R,
    alloc: Global,
    desks: &Desks,
    gate: &G,
    crew: &mut [Member],
)
    requires desks { AreDesksOf desks.now }
    requires crew { All (MayWork desks.now) crew.old }
    ensures { (i : ℕ) (d : _) → i < length crew.old → HasWorked desks.now (slice_index_or crew.old i d) (slice_index_or crew.new i d) }
{
    let count = crew.len();
    if count == 0 {
        return;
    }
    thread::for_each_mut(
        rt,
        crew,
        count,
        &|_, member| {
            let end = member.worker.work(rt, alloc, desks, gate);
            member.end = Some(end);
        },
    );
}

/// Has each member of a crew work in a thread of its own, until all have ended.
pub(crate) fn work_together<R: Threads + Wait + Sync, G: Gate + Sync>(
    rt: &R,
    alloc: Global,
    desks: &Desks,
    gate: &G,
    mut crew: Vec<Member>,
) -> Vec<Member>
    requires desks { AreDesksOf desks.now }
    requires crew { All (MayWork desks.now) crew.items }
    ensures { AllZip (HasWorked desks.now) crew.items result.items }
{
    work_in_threads(rt, alloc, desks, gate, crew.as_mut_slice());
    crew
}

/// Whether each has ended since nothing was left to do.
pub(crate) fn have_finished(crew: &[Member]) -> bool
    ensures { IsTrue result → All (λ member. member.end ≡ Some WorkEnd.Finished) crew.now }
{
    crew.iter()
        .all(|member| matches!(member.end, Some(WorkEnd::Finished)))
}
