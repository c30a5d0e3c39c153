//! One core: a lawful history of requests with the right replies, and the counter that puts its outputs out.
#![tactic(auto)]

mod booking;
mod data;
mod histories;
mod named;
mod one_core;
mod outputs;
mod replies;

pub use data::{Act, Ask, Config, Entry, StartEnd, StartOf, Tick, config_ok};
pub use histories::{
    a_name_fetches_what_was_saved_last, no_error_comes_without_reason,
    what_is_decided_stays_decided,
};
pub use named::{Named, NamedList};
pub use one_core::Core;
