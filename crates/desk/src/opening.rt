// How a desk is opened, with all its chairs.
ghost use Rattle.std.specs.Prelude.{◌≡◌, ◌<◌, ◌≤◌, [], IfOk, IfErr, vec_len, vec_capacity};
ghost use Rattle.desk_rule.specs.Kept.{first_view};
ghost use Rattle.desk.specs.Seated.{new_chairs};
ghost use Rattle.desk.specs.Counters.{id_of};

use crate::boxed::Boxed;
use crate::chair::Chair;
use crate::counter::Desk;
use crate::takings::Takings;
use desk_rule::{Booked, DeskSeat, DeskShared, make_chair, open_table};
use std::alloc::Global;

// Makes the other chairs from the first one's seat, and puts all into the room for them, by number.
fn seat_all<T: Booked>(
    shared: &DeskShared<Boxed<T>>,
    first: DeskSeat<Boxed<T>>,
    chairs: u32,
    room: &mut Vec<Chair<T>>,
)
    requires shared { (first.table_id ≡ shared.now.table_id) × (shared.now.table_id.words ≡ 1) }
    requires first { first.me ≡ (first_view (T.fixed shared.now.key.first.value), []) }
    requires count { (0 < chairs) × (shared.now.key.chairs ≡ chairs) }
    requires room { (room.old.items ≡ []) × (chairs ≤ vec_capacity room.old) }
    ensures { room.new.items ≡ new_chairs (id_of T.fixed shared.now.table_id shared.now.key) 0 chairs }
{
    let mut first = first;
    let mut made = 1;
    while made < chairs {
        let seat = make_chair(shared, &mut first);
        let Ok(()) = room.push(Chair {
            number: made,
            seat,
            takings: Takings::none(),
        }) else {
            unreachable!()
        };
        made += 1;
    }
    let Ok(()) = room.push(Chair {
        number: 0,
        seat: first,
        takings: Takings::none(),
    }) else {
        unreachable!()
    };
    room.as_mut_slice().rotate_right(1);
}

impl<T: Booked> Desk<T> {
    /// A desk with this value, whose history is empty, and this many chairs, by number from 0.
    /// At `Err` there was no memory, and the value comes back.
    pub fn open(alloc: Global, value: T, chairs: u32) -> Result<(Desk<T>, Vec<Chair<T>>), T>
        requires some { 0 < chairs }
        requires new { T.history value ≡ [] }
        ensures desk { IfOk result (λ r. (r.0.fixed ≡ T.fixed value) × (r.0.chairs ≡ chairs)) }
        ensures chairs { IfOk result (λ r. r.1.items ≡ new_chairs r.0.id 0 chairs) }
        ensures back { IfErr result (λ x. x ≡ value) }
    {
        let Ok(mut room) = Vec::with_capacity(alloc, chairs as usize) else {
            return Err(value);
        };
        let boxed = match Boxed::new(alloc, value) {
            Ok(boxed) => boxed,
            Err(value) => return Err(value),
        };
        match open_table(alloc, boxed, chairs) {
            Ok((table, first)) => {
                seat_all(&table.shared, first, chairs, &mut room);
                Ok((Desk { table }, room))
            }
            Err(boxed) => Err(boxed.into_inner()),
        }
    }
}
