// The value of a desk, in a box: what a take and a put move is its address.
ghost use Rattle.std.specs.Prelude.{◌≡◌, IfOk, IfErr};

use desk_rule::Booked;
use std::alloc::{AllocFailed, Global};
use std::marker::Model;

/// Contracts see the box as what is in it.
#[derive(Drop)]
pub(crate) struct Boxed<T> {
    inside: Box<T>,
}

impl<T> Model for Boxed<T> {
    ghost Value = { T };

    ghost coded = { T.code };

    ghost view = { λ b. b.inside.value };
}

impl<T: Booked> Booked for Boxed<T> {
    type Act = T::Act;

    type Fixed = T::Fixed;

    ghost history = { T.history };

    ghost fixed = { T.fixed };
}

impl<T> Boxed<T> {
    /// At `Err` there was no memory, and the value comes back.
    pub(crate) fn new(alloc: Global, value: T) -> Result<Boxed<T>, T>
        ensures boxed { IfOk result (λ b. b ≡ value) }
        ensures back { IfErr result (λ x. x ≡ value) }
    {
        match Box::new(alloc, value) {
            Ok(inside) => Ok(Boxed { inside }),
            Err(AllocFailed { value }) => Err(value),
        }
    }

    pub(crate) fn into_inner(self) -> T
        ensures { result ≡ self }
    {
        let Boxed { inside } = self;
        Box::into_inner(inside)
    }
}

impl<T> Boxed<T> {
    ghost use Rattle.std.specs.Borrow.{sem};
    ghost use Rattle.desk.specs.Boxes.{LendsInside};

    pub(crate) fn lend(&mut self) -> &mut T
        ensures* writes_back { sem 𝓛 (LendsInside T.row self.entry result) }
        ensures value { result.now ≡ self.old }
    {
        self.inside.as_mut()
    }
}
