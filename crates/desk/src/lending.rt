// The value, lent to the chair that holds it.
ghost use Rattle.std.specs.Prelude.{◌≡◌};
ghost use Rattle.std.specs.Borrow.{sem};
ghost use Rattle.desk.specs.Lending.{LendsValue};

use crate::chair::Held;
use desk_rule::Booked;

impl<T: Booked> Held<T> {
    /// The value itself, to be read and changed.
    pub fn value(&mut self) -> &mut T
        ensures* writes_back { sem 𝓛 (LendsValue T.row T.Act.row T.Fixed.row T.Booked self.entry result) }
        ensures value { result.now ≡ self.old.value }
    {
        self.value.lend()
    }
}
