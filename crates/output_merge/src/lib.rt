//! What is put out of the events of one cycle, and which of them collide.
#![tactic(auto)]

mod group;
mod holds;
mod laws;
mod merging;
mod place;

pub use holds::Holds;
pub use laws::{
    a_clearing_takes_what_the_lanes_hold, a_tick_puts_out_what_the_merge_keeps,
    no_event_collides_alone, no_event_is_busy_without_a_hold, what_was_put_out_stays,
};
pub use merging::merge;
