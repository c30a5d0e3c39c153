//! The rule of a desk: a lock with one word and one slot, through which threads share a value that has a history.
//! The word is 0 where the value is at home in the slot, else the number of the chair that holds it, plus 1.
//! What each chair and each note knows are records (`Record`), which exist in proofs alone; the rule ties them to
//! word and slot, and each step of `steps` keeps it. The crate `desk` makes a lock of them.
#![tactic(auto)]

mod law;
mod plays;
mod steps;
mod table;
mod view;

pub use law::{Law, Opening};
pub use steps::{hear_note, make_chair, make_note, put_home, take_in, try_once};
pub use table::{DeskSeat, DeskShared, DeskTable, close_table, open_table};
pub use view::{Booked, Record, View};
