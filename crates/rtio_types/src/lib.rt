//! The plain data of real-time input and output: events, the requests of a kernel and their replies, the board's
//! channels, and the names of recordings and datasets.
#![tactic(auto)]

mod board;
mod event;
mod lists;
mod name;
mod outcome;
mod request;
mod time;

pub use board::{ChannelKind, channel_named, has_address, is_input, is_output, kind_of};
pub use event::{Edge, Event};
pub use lists::{EdgeList, IntList, Recording};
pub use name::Name;
pub use outcome::{Exc, Outcome};
pub use request::{Reply, Request, Value, Waiting, fits, well_formed};
pub use time::{
    MU_PER_CYCLE, coarse, counter_reaching, cycle_of, cycle_of_stamp, reading, whole_cycles,
};
