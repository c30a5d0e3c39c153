//! That recordings and dumps are read from bytes as they are spelled there. Spelling and reading are each defined by
//! itself: these laws join the two.
#![tactic(auto)]

mod dumps;
mod recordings;

pub use dumps::dumps_are_read_as_spelled;
pub use recordings::recordings_are_read_as_spelled;
