// The chairs of workers that have ended.

ghost use Rattle.std.specs.Prelude.{◌≡◌, length, map, All};
ghost use Rattle.lab_desks.specs.Columns.{HasRoom};
ghost use Rattle.lab_crew.specs.Crews.{IsFreeWorker};

use crate::member::Member;
use desk::Chair;
use lab_kits::Kit;
use rtio_core::Core;
use sched_core::Sched;

/// Takes the chairs of all, in order.
pub(crate) fn gather(
    crew: Vec<Member>,
    scheds: &mut Vec<Chair<Sched<Kit>>>,
    rows: &mut Vec<Vec<Chair<Core>>>,
)
    requires scheds { HasRoom (length crew.items) scheds.old }
    requires rows { HasRoom (length crew.items) rows.old }
    ensures scheds { scheds.new.items ≡ map (λ member. member.worker.sched) crew.items }
    ensures rows { map (λ row. row.items) rows.new.items ≡ map (λ member. member.worker.cores) crew.items }
    ensures free { All (λ member. IsFreeWorker member.worker) crew.items }
{
    for member in crew {
        let (sched, cores) = member.worker.into_chairs();
        let Ok(()) = scheds.push(sched) else {
            unreachable!()
        };
        let Ok(()) = rows.push(cores) else {
            unreachable!()
        };
    }
}
