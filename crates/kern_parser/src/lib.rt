//! The parser of kernel texts: the tree of a text's tokens, or the first token that is wrong.
#![tactic(auto)]

mod function;
mod parsing;
mod parts;
mod program;

pub use parsing::{SyntaxEnd, parse};
