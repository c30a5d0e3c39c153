//! Reading marks, words and expressions from the front of a text's tokens.
//!
//! A function here takes the tokens that are left, and gives what it read with the tokens behind
//! it, or the tokens from the first wrong one on. What memory was refused to is missing from what
//! it read, and reading goes on.
#![tactic(auto)]

mod atom;
mod expression;
mod marks;
mod operator;
mod parts;
mod tokens;
mod words;

pub use atom::quoted_name;
pub use expression::{expression_at, expression_here_at};
pub use marks::{
    close_bracket_at, close_parenthesis_at, colon_at, dedent_at, def_at, dot_at, in_at, indent_at,
    line_end_at, open_parenthesis_at,
};
pub use parts::{Form, ReadExpr, pushed};
pub use tokens::{Tokens, WrongToken};
pub use words::{name_at, type_at, word_at};
