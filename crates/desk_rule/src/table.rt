// The table of a desk: how it is made, and what it gives back.
ghost use Rattle.std.specs.Prelude.{◌≡◌, ℕ, ◌<◌, ◌≤◌, [], false, IfOk, IfErr};
ghost use Rattle.desk_rule.specs.Closing.{Closes};
ghost use Rattle.desk_rule.specs.Kept.{first_view};
ghost use Rattle.desk_rule.specs.Records.{times};

use crate::law::{Law, Opening};
use crate::view::{Booked, View};
use atomic_table::{Refused, Seat, Shared, Table};
use std::alloc::{AllocFailed, Global};
use std::snapshot::Snapshot;

/// The table of a desk: one word, and one slot for the value.
pub type DeskTable<T> = Table<
    Option<T>,
    View<<T as Booked>::Act, <T as Booked>::Fixed>,
    Opening<T>,
    Law<T>,
    Global,
>;

/// Word and slot, as threads share them.
pub type DeskShared<T> = Shared<
    Option<T>,
    View<<T as Booked>::Act, <T as Booked>::Fixed>,
    Opening<T>,
    Law<T>,
>;

/// What a chair or a note has of the table. It has no bytes.
pub type DeskSeat<T> = Seat<Option<T>, View<<T as Booked>::Act, <T as Booked>::Fixed>>;

/// A table with this value at home and the word 0, and the seat of the first chair, with the number 0.
/// At `Err` there was no memory, and the value comes back.
pub fn open_table<T: Booked>(
    alloc: Global,
    value: T,
    chairs: u32,
) -> Result<(DeskTable<T>, DeskSeat<T>), T>
    requires some { 0 < chairs }
    requires new { T.history value ≡ [] }
    ensures table { IfOk result (λ r. (r.0.shared.table_id.words ≡ 1) × (r.0.shared.table_id.slots ≡ 1)) }
    ensures key { IfOk result (λ r. (r.0.shared.key.first.value ≡ value) × (r.0.shared.key.chairs ≡ chairs)) }
    ensures first { IfOk result (λ r. (r.1.table_id ≡ r.0.shared.table_id) × (r.1.me ≡ (first_view (T.fixed value), []))) }
    ensures back { IfErr result (λ x. x ≡ value) }
{
    let opening = Opening {
        first: Snapshot::of(&value),
        chairs,
    };
    let mut slots = Vec::new(alloc);
    if let Err(failed) = slots.push(Some(value)) {
        let AllocFailed { value } = failed;
        let Some(value) = value else { unreachable!() };
        slots.destroy_empty();
        return Err(value);
    }
    match Table::new(alloc, &[0], slots, &opening) {
        Ok((table, first)) => Ok((table, first)),
        Err(Refused { mut slots }) => {
            let last = slots.pop();
            slots.destroy_empty();
            let Some(Some(value)) = last else {
                unreachable!()
            };
            Err(value)
        }
    }
}

/// The value, from a seat that has the records of all chairs and not the pass.
pub fn close_table<T: Booked>(table: DeskTable<T>, seat: DeskSeat<T>) -> T
    requires of { (seat.table_id ≡ table.shared.table_id) × (table.shared.table_id.slots ≡ 1) }
    requires free { seat.me.0.pass ≡ false }
    requires all { (k : ℕ) → k < table.shared.key.chairs → 1 ≤ times k seat.me.0.records }
    ensures { Closes T.history T.fixed table.shared.key.chairs (T.fixed table.shared.key.first.value) seat.me.0.records result }
{
    let mut closed = table.close_with(seat);
    let value = closed.take(0);
    closed.free();
    let Some(value) = value else { unreachable!() };
    value
}
