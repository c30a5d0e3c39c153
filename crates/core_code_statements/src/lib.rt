//! The code of statements, blocks and the bodies of functions, put line behind line.
#![tactic(auto)]

mod blocks;
mod body;
mod branches;
mod exceptions;
mod handlers;
mod loops;
mod together;

pub use blocks::put_block;
pub use body::put_body;
/// The setting of a body, and what it is made of.
pub use core_code_names::{Setting, SlottedNames, Texts, block_slots, texts_of};
pub use core_code_simple::{Inside, LoopPlaces};
