//! Lanes of events with strictly rising cycles, as a scalable event dispatcher has them (ARTIQ manual, "RTIO"): which
//! lane takes an event, which event is out of sequence, and which has to wait until a lane has room.
#![tactic(auto)]

mod heads;
mod lane;
mod lanes;
mod laws;
mod queue;

pub use heads::Heads;
pub use lanes::{Lanes, Place};
pub use laws::{
    a_later_event_is_in_sequence, a_waiting_event_is_decided_in_time, cycles_rise_in_each_lane,
    decided_stays_decided, no_lane_holds_too_many, the_lanes_hold_what_was_accepted,
};
