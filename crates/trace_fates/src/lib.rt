//! What became of each output that a core was asked for: whether it came out, and if not, why.
#![tactic(auto)]

mod data;
mod laws;
mod naming;
mod overriding;
mod slack;
mod tracing;

pub use data::{Fate, TracedOutput};
pub use laws::{
    as_many_came_out_as_were_put_out, each_fate_is_the_first_reason_that_holds,
    each_output_has_one_fate, each_output_is_put_out_or_lost_once, late_is_a_slack_below_a_cycle,
};
pub use slack::{reading, slack_of};
pub use tracing::traced_outputs;
