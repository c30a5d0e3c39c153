// The steps on word and slot. Each keeps the rule, in every state that it may meet.
ghost use Rattle.std.specs.Prelude.{◌≡◌, ℕ, ◌<◌, [], ◌∷◌, ◌++◌, true, false, None, Some, IfOk, IfErr};
ghost use Rattle.desk_rule.specs.Histories.{Grew};
ghost use Rattle.desk_rule.specs.Records.{view};
ghost use Rattle.desk_rule.specs.Steps.{first_made, first_seen, counted, new_chair, won, Finds, lost, IsAnother, put, told, merged, heard, Hears};
ghost use Rattle.desk_rule.specs.Views.{IsOwn, IsNote};

use crate::plays::{Make, Merge, Put, Settle, Take, Tell};
use crate::table::{DeskSeat, DeskShared};
use crate::view::Booked;

/// The first chair makes one more. Its number is how many there were.
pub fn make_chair<T: Booked>(shared: &DeskShared<T>, first: &mut DeskSeat<T>) -> DeskSeat<T>
    requires of { (first.old.table_id ≡ shared.now.table_id) × (0 < shared.now.table_id.words) }
    requires first { IsOwn 0 first.old.me.0 }
    requires more { first_made first.old.me.0.records < shared.now.key.chairs }
    ensures first { (first.new.table_id ≡ first.old.table_id) × (first.new.me ≡ (counted first.old.me.0, first.old.me.1)) }
    ensures chair { (result.table_id ≡ first.old.table_id) × (result.me ≡ (new_chair first.old.me.0, [])) }
{
    shared.split_seat::<Make>(first)
}

/// One try to take the value, by the chair with this number. At `Err` another chair has it, the one with the number there.
pub fn try_once<T: Booked>(
    shared: &DeskShared<T>,
    seat: &mut DeskSeat<T>,
    number: u32,
) -> Result<T, u32>
    requires of { (seat.old.table_id ≡ shared.now.table_id) × (0 < shared.now.table_id.words) }
    requires chair { IsOwn number seat.old.me.0 }
    requires free { (seat.old.me.0.pass ≡ false) × (seat.old.me.1 ≡ []) }
    ensures table { seat.new.table_id ≡ seat.old.table_id }
    ensures won { IfOk result (λ x. seat.new.me ≡ (view (won (T.history x) seat.old.me.0.records) true seat.old.me.0.fixed, (0, None) ∷ [])) }
    ensures found { IfOk result (λ x. Finds (T.history x) seat.old.me.0.records × ((f : T.Fixed) → seat.old.me.0.fixed ≡ Some f → T.fixed x ≡ f)) }
    ensures lost { IfErr result (λ by. (seat.new.me ≡ (view (lost by seat.old.me.0.records) false seat.old.me.0.fixed, [])) × IsAnother by seat.old.me.0.records) }
{
    let word = u64::from(number) + 1;
    let found = shared.compare_exchange::<Take<T>>(seat, 0, 0, word);
    if found != 0 {
        return Err((found - 1) as u32);
    }
    let taken = shared.exchange(seat, 0, None);
    let Some(value) = taken else { unreachable!() };
    Ok(value)
}

/// The holder puts the value back: it goes into the slot, and then the word is 0 again.
pub fn put_home<T: Booked>(shared: &DeskShared<T>, seat: &mut DeskSeat<T>, value: T)
    requires of { (seat.old.table_id ≡ shared.now.table_id) × (0 < shared.now.table_id.words) }
    requires holder { (seat.old.me.0.pass ≡ true) × (seat.old.me.1 ≡ (0, None) ∷ []) }
    requires grew { (k : ℕ) × IsOwn k seat.old.me.0 × Grew k (first_seen seat.old.me.0.records) (T.history value) }
    requires fixed { T.fixed value ≡ T.fixed shared.now.key.first.value }
    ensures { (seat.new.table_id ≡ seat.old.table_id) × (seat.new.me ≡ (view (put (T.history value) seat.old.me.0.records) false seat.old.me.0.fixed, [])) }
{
    let left = shared.exchange(seat, 0, Some(value));
    let None = left else { unreachable!() };
    shared.store::<Put<T>>(seat, 0, 0);
}

/// A note of all that the chair has seen.
pub fn make_note<T: Booked>(shared: &DeskShared<T>, seat: &mut DeskSeat<T>) -> DeskSeat<T>
    requires of { (seat.old.table_id ≡ shared.now.table_id) × (0 < shared.now.table_id.words) }
    requires chair { (k : ℕ) × IsOwn k seat.old.me.0 }
    ensures same { (seat.new.table_id ≡ seat.old.table_id) × (seat.new.me ≡ seat.old.me) }
    ensures note { (result.table_id ≡ seat.old.table_id) × (result.me ≡ (told seat.old.me.0, [])) }
{
    shared.split_seat::<Tell>(seat)
}

/// The chair takes the note in: it has seen then what it and the note's teller had seen.
pub fn hear_note<T: Booked>(shared: &DeskShared<T>, seat: &mut DeskSeat<T>, note: DeskSeat<T>)
    requires of { (seat.old.table_id ≡ shared.now.table_id) × (note.table_id ≡ shared.now.table_id) × (0 < shared.now.table_id.words) }
    requires chair { (k : ℕ) × IsOwn k seat.old.me.0 }
    requires note { IsNote note.me.0 × (note.me.1 ≡ []) }
    ensures seat { (seat.new.table_id ≡ seat.old.table_id) × (seat.new.me ≡ (view (heard (seat.old.me.0.records ++ note.me.0.records)) seat.old.me.0.pass seat.old.me.0.fixed, seat.old.me.1)) }
    ensures hears { Hears seat.old.me.0.pass (seat.old.me.0.records ++ note.me.0.records) }
{
    shared.join_seat::<Merge>(seat, note);
    shared.load::<Settle>(seat, 0);
}

/// The records of another chair, which doesn't hold the value, are added to those of this seat.
pub fn take_in<T: Booked>(shared: &DeskShared<T>, seat: &mut DeskSeat<T>, other: DeskSeat<T>)
    requires of { (seat.old.table_id ≡ shared.now.table_id) × (other.table_id ≡ shared.now.table_id) × (0 < shared.now.table_id.words) }
    requires free { (other.me.0.pass ≡ false) × (other.me.1 ≡ []) }
    ensures { (seat.new.table_id ≡ seat.old.table_id) × (seat.new.me ≡ (merged seat.old.me.0 other.me.0, seat.old.me.1)) }
{
    shared.join_seat::<Merge>(seat, other);
}
