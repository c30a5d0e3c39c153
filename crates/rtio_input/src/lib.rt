//! The edges of the inputs, as a gate lets them through (ARTIQ manual, "TTLInOut"): which edges are seen, which are kept
//! until they are read, and what a request for one is answered. The script of edges stands for the world outside; it,
//! the limits, the answers by an upper bound and what a reset does to inputs are this project's own.
#![tactic(auto)]

mod channel;
mod channels;
mod inputs;
mod laws;
mod script;

pub use inputs::Inputs;
pub use laws::{a_decided_edge_stays_decided, an_edge_reply_fits, no_edge_no_change};
pub use script::edges_ok;
