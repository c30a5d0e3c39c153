//! The grammar of kernel texts: which tokens have which tree, and what holds of every list of
//! tokens.
#![tactic(auto)]

mod joiner;
mod laws;

pub use joiner::Joiner;
pub use laws::{
    canonical_tokens_parse, fault_is_within, one_expression, one_first_fault, one_tree,
    tree_or_fault,
};
