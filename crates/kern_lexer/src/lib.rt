//! The tokens of a kernel's text.
//!
//! `lex` cuts a text into lines, takes off the comments, compares the leading spaces with the
//! widths that are open, and reads the words of each line.
#![tactic(auto)]

mod fault;
mod front;
mod laws;
mod layout;
mod lexing;
mod line;
mod margin;
mod number;
mod spelling;
mod token;
mod words;

pub use fault::{LexEnd, LexKind};
pub use laws::{
    decimals_are_read, faults_are_computed, longest_signs_are_read, never_both,
    nothing_stands_at_a_fault, one_first_fault, one_token_list, spaces_are_skipped,
    spellings_are_read, tokens_are_computed, tokens_end_once, tokens_or_fault, two_tokens_a_byte,
};
pub use lexing::lex;
pub use token::{Key, Sign, Token, TokenKind};
