// The desk itself.
use crate::boxed::Boxed;
use desk_rule::{Booked, DeskTable};
use std::marker::Model;

/// A lock round a value with a history. It is this project's own.
///
/// Chairs take the value, let its history grow by acts of their own, and put it back. Contracts see a desk as
/// which one it is, the fixed part of the value that it was opened with, and how many chairs it has.
#[derive(Drop)]
pub struct Desk<T: Booked> {
    pub(crate) table: DeskTable<Boxed<T>>,
}

impl<T: Booked> Model for Desk<T> {
    ghost use Rattle.desk.specs.Seated.{Opened};

    ghost Value = { Opened T.Fixed };

    ghost use Rattle.desk.specs.Counters.{opened, IsOneWord};

    ghost view = { opened T.fixed };

    ghost invariant = { IsOneWord };
}
