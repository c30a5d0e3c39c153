// Desks that are closed with all their chairs.

ghost use Rattle.std.specs.Prelude.{◌≡◌, ℕ, [], Some, length, map, slice_get, All};
ghost use Rattle.desk.specs.Seated.{Opened};
ghost use Rattle.rtio_core.specs.declared.data.Config.{Config};
ghost use Rattle.lab_desks.specs.Columns.{HasRoom, column};
ghost use Rattle.lab_desks.specs.Closed.{AreChairsOf, AreClosed, IsClosedCore, IsClosedSched};

use crate::columns::last_of_each;
use desk::{Chair, Desk};
use lab_kits::Kit;
use rtio_core::Core;
use sched_core::Sched;

/// Closes the desk of a scheduler with all its chairs, none of which holds it.
pub fn close_sched(desk: Desk<Sched<Kit>>, chairs: Vec<Chair<Sched<Kit>>>) -> Sched<Kit>
    requires { AreChairsOf desk chairs.items }
    ensures { IsClosedSched desk chairs.items result }
{
    let sched = desk.close(chairs);
    let _known = sched.history();
    sched
}

// Closes the desk of a core with all its chairs.
fn close_core(desk: Desk<Core>, chairs: Vec<Chair<Core>>) -> Core
    requires { AreChairsOf desk chairs.items }
    ensures { IsClosedCore desk chairs.items result }
{
    let core = desk.close(chairs);
    let _known = core.history();
    core
}

/// Closes the desks of the cores, which come back in the order of their desks. Each row has a worker's chairs, by desk; there is room
/// for the chairs of each desk, and for the cores. The rows are left empty.
pub fn close_cores(
    mut desks: Vec<Desk<Core>>,
    rows: &mut [Vec<Chair<Core>>],
    mut rooms: Vec<Vec<Chair<Core>>>,
    room: Vec<Core>,
) -> Vec<Core>
    requires chairs { (place : ℕ) (desk : Opened Config) → slice_get desks.items place ≡ Some desk → AreChairsOf desk (column place (map (λ row. row.items) rows.old)) }
    requires rows { All (λ row. length row.items ≡ length desks.items) rows.old }
    requires count { length rooms.items ≡ length desks.items }
    requires rooms { All (HasRoom (length rows.old)) rooms.items }
    requires room { HasRoom (length desks.items) room }
    ensures cores { AreClosed (map (λ row. row.items) rows.old) 0 desks.items result.items }
    ensures rows { All (λ row. row.items ≡ []) rows.new }
{
    let mut cores = room;
    while let Some(desk) = desks.pop() {
        let Some(mut chairs) = rooms.pop() else {
            unreachable!()
        };
        last_of_each(rows, &mut chairs);
        let Ok(()) = cores.push(close_core(desk, chairs)) else {
            unreachable!()
        };
    }
    cores.as_mut_slice().reverse();
    cores
}
