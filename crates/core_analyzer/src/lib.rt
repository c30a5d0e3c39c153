//! What a core did, as bytes that can be kept: its counter, the events that it put out, and the lines of its log. The bytes
//! are this project's own.
#![tactic(auto)]

mod dump;
mod faults;
mod laws;
mod reading;
mod rises;
mod waveform;
mod writing;

pub use dump::{Dump, DumpEnd};
pub use laws::{
    a_dump_has_one_spelling, right_bytes_are_dumps, what_a_core_did_is_a_dump,
    what_is_written_reads_back,
};
pub use reading::read_dump;
pub use rises::rising;
pub use waveform::vcd;
pub use writing::{has_few_entries, write_dump};
