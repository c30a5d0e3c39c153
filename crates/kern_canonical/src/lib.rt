//! The law of printing: the canonical text of a tree is read as that tree again.
#![tactic(auto)]

mod laws;

pub use laws::{canonical_text_lexes, canonical_text_reads_back};
