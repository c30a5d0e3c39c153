// A turn at the desk: take, put, tell and absorb.
ghost use Rattle.std.specs.Prelude.{◌≡◌, ◌≢◌, true, false, IfOk, IfErr, Some};
ghost use mathlib.Core.List.{IsPrefix};
ghost use Rattle.desk_rule.specs.Histories.{acts_of, Grew};
ghost use Rattle.desk.specs.Seated.{holding, losing, refused, LosesMore, Puts, Hears};

use crate::chair::{Chair, Held, Note, Taken};
use crate::counter::Desk;
use desk_rule::{Booked, hear_note, make_note, put_home, try_once};
use std::snapshot::Snapshot;
use std::sync::Wait;
use std::thread;

impl<T: Booked> Desk<T> {
    /// Tries once to take the value, and never waits. It takes no memory.
    ///
    /// What it finds begins with all that the chair had seen, and has just the acts of the chair that it put.
    /// `Taken` names another chair; `lost` has grown by its number.
    pub fn try_take(&self, chair: &mut Chair<T>) -> Result<Held<T>, Taken>
        requires of { chair.old.desk ≡ self.now.id }
        requires free { chair.old.holds ≡ false }
        ensures held { IfOk result (λ h. (chair.new ≡ holding chair.old (T.history h.value)) × (h.by.value ≡ chair.new)) }
        ensures found { IfOk result (λ h. IsPrefix chair.old.seen (T.history h.value) × (acts_of chair.old.number (T.history h.value) ≡ chair.old.own) × (T.fixed h.value ≡ self.now.fixed)) }
        ensures taken { IfErr result (λ t. (chair.new ≡ refused chair.old t.by) × (t.by ≢ chair.old.number)) }
    {
        match try_once(&self.table.shared, &mut chair.seat, chair.number) {
            Ok(value) => {
                chair.takings.add(&value);
                let by = Snapshot::of(&*chair);
                Ok(Held { value, by })
            }
            Err(by) => Err(Taken { by }),
        }
    }

    /// Puts the value back. Since it was taken, acts of this chair alone were added, and the fixed part stayed.
    /// It takes no memory.
    pub fn put(&self, chair: &mut Chair<T>, held: Held<T>)
        requires of { chair.old.desk ≡ self.now.id }
        requires held { (chair.old.holds ≡ true) × (held.by.value ≡ chair.old) }
        requires grew { Grew chair.old.number chair.old.seen (T.history held.value) }
        requires fixed { T.fixed held.value ≡ self.now.fixed }
        ensures { Puts chair.old (T.history held.value) chair.new }
    {
        let Held { value, by: _ } = held;
        put_home(&self.table.shared, &mut chair.seat, value);
    }

    /// Tries again until the chair has the value. That it is ever won is not promised.
    pub fn take<R: Wait>(&self, rt: &R, chair: &mut Chair<T>) -> Held<T>
        requires of { chair.old.desk ≡ self.now.id }
        requires free { chair.old.holds ≡ false }
        ensures held { (chair.new ≡ holding (losing chair.old chair.new.lost) (T.history result.value)) × (result.by.value ≡ chair.new) }
        ensures lost { LosesMore chair.old.number chair.old.lost chair.new.lost }
        ensures found { IsPrefix chair.old.seen (T.history result.value) × (acts_of chair.old.number (T.history result.value) ≡ chair.old.own) × (T.fixed result.value ≡ self.now.fixed) }
    {
        for _ in rt.forever() {
            if let Ok(held) = self.try_take(chair) {
                return held;
            }
            thread::yield_now();
        }
        unreachable!()
    }

    /// A note of all that the chair has seen. It takes no memory.
    pub fn tell(&self, chair: &mut Chair<T>) -> Note<T>
        requires of { chair.old.desk ≡ self.now.id }
        ensures same { chair.new ≡ chair.old }
        ensures note { (result.desk ≡ chair.old.desk) × (result.seen ≡ chair.old.seen) }
    {
        Note {
            seat: make_note(&self.table.shared, &mut chair.seat),
        }
    }

    /// What the note's teller had seen, this chair has seen too. It takes no memory.
    pub fn absorb(&self, chair: &mut Chair<T>, note: Note<T>)
        requires of { chair.old.desk ≡ self.now.id }
        requires note { note.desk ≡ self.now.id }
        ensures { Hears chair.old note.seen chair.new }
    {
        let Note { seat } = note;
        hear_note(&self.table.shared, &mut chair.seat, seat);
    }
}
