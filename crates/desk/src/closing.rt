// How a desk is closed, with all its chairs.
ghost use Rattle.std.specs.Prelude.{◌≡◌, ℕ, ◌<◌, ◌≤◌, [], false};
ghost use mathlib.Core.List.{IsPrefix};
ghost use Rattle.desk_rule.specs.Histories.{acts_of, Each};
ghost use Rattle.desk.specs.Closing.{HasNumber, HasTaken};

use crate::chair::Chair;
use crate::counter::Desk;
use desk_rule::{Booked, close_table, take_in};

impl<T: Booked> Desk<T> {
    /// The value, with a history of just what the chairs put. It needs all chairs of the desk, none of which holds
    /// the value, and takes no memory.
    pub fn close(self, chairs: Vec<Chair<T>>) -> T
        requires of { Each (λ c. (c.desk ≡ self.id) × (c.holds ≡ false)) chairs.items }
        requires all { (k : ℕ) → k < self.chairs → HasNumber chairs.items k }
        ensures fixed { T.fixed result ≡ self.fixed }
        ensures seen { Each (λ c. IsPrefix c.seen (T.history result)) chairs.items }
        ensures own { Each (λ c. acts_of c.number (T.history result) ≡ c.own) chairs.items }
        ensures others { (k : ℕ) → self.chairs ≤ k → acts_of k (T.history result) ≡ [] }
        ensures lost { Each (λ c. Each (HasTaken chairs.items) c.lost) chairs.items }
    {
        let Desk { table } = self;
        let mut chairs = chairs;
        let Some(first) = chairs.pop() else {
            unreachable!()
        };
        let Chair {
            number: _,
            mut seat,
            takings: _,
        } = first;
        while let Some(other) = chairs.pop() {
            let Chair {
                number: _,
                seat: joined,
                takings: _,
            } = other;
            take_in(&table.shared, &mut seat, joined);
        }
        close_table(table, seat).into_inner()
    }
}
