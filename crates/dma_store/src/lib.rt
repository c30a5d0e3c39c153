//! Recordings that a core keeps by name until they are erased, as the ARTIQ manual's DMA does, and the bytes of one, which
//! are those of `recording_bytes`. The limit of 4,096 names, epochs and handles, and what is refused are this project's own.
#![tactic(auto)]

mod key;
mod laws;
mod store;

pub use laws::{
    a_save_is_fetched, an_erased_name_fetches_nothing, handles_fetch_what_they_name,
    handles_grow_old,
};
pub use recording_bytes::{DmaEnd, decode, encode};
pub use store::{FetchEnd, HandleEnd, NoTrace, SaveEnd, Store};
