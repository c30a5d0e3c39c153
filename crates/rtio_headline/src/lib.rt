//! What a core puts out, said in the words of what it was asked.
#![tactic(auto)]

mod laws;

pub use laws::{no_more_is_told_than_was_asked, what_is_put_out_was_submitted};
