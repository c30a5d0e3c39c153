//! The meaning of kernels on the timeline: what a function asks of a core, request by request, and how it ends.
#![tactic(auto)]

mod laws;
mod meant;

pub use laws::{
    each_request_takes_a_reply, replies_extend_meanings, requests_are_only_added,
    requests_take_units, units_never_rise,
};
pub use meant::MeantOutcome;
