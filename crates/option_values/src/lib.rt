//! What the values of `artiq_sim`'s options say: numbers, schedules, edges, holds and recordings in words. These forms are
//! this project's own.
#![tactic(auto)]

mod edges;
mod end;
mod holds;
mod numbers;
mod recordings;
mod schedules;

pub use edges::read_edges;
pub use end::ValueEnd;
pub use holds::read_holds;
pub use numbers::read_number;
pub use recordings::read_recordings;
pub use schedules::read_schedule;
