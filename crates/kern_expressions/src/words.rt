// Names and words at the front of tokens.

ghost use Rattle.std.specs.Prelude.{◌≡◌, Some, None, if◌then◌else◌};
ghost use Rattle.std.specs.Str.{bytes_eq};
ghost use Rattle.kern_expressions.specs.TakenBy.{FindsRest, FindsTaken, GivesTaken, first_seen, lexemes_left};
ghost use Rattle.kern_grammar.specs.Views.{a_name, a_type, the_name, type_of_word};

use crate::parts::identifier;
use crate::tokens::{Tokens, WrongToken};
use kern_lexer::TokenKind;
use kern_syntax::{DeclaredType, Identifier};
use std::alloc::Global;

/// A name, which is missing where memory was refused.
pub fn name_at<'a>(
    alloc: Global,
    tokens: Tokens<'a>,
) -> Result<(Option<Identifier>, Tokens<'a>), WrongToken<'a>>
    ensures { GivesTaken (λ name. name) result (first_seen a_name (lexemes_left tokens.entry)) }
{
    match tokens.list {
        [] => Err(WrongToken { left: tokens }),
        [first, ..] => match first.kind {
            TokenKind::Name => {
                let bytes = tokens.bytes_at(first.at as usize, first.len as usize);
                Ok((identifier(alloc, bytes), tokens.tail()))
            }
            _ => Err(WrongToken { left: tokens }),
        },
    }
}

/// The name that is this word.
pub fn word_at<'a>(word: &[u8], tokens: Tokens<'a>) -> Result<Tokens<'a>, WrongToken<'a>>
    ensures { FindsRest result (first_seen (the_name word.now) (lexemes_left tokens.entry)) }
{
    match tokens.list {
        [] => Err(WrongToken { left: tokens }),
        [first, ..] => match first.kind {
            TokenKind::Name => {
                if tokens.bytes_at(first.at as usize, first.len as usize) == word {
                    Ok(tokens.tail())
                } else {
                    Err(WrongToken { left: tokens })
                }
            }
            _ => Err(WrongToken { left: tokens }),
        },
    }
}

// The type that a word names.
fn type_of_word(word: &[u8]) -> Option<DeclaredType>
    ensures { result ≡ type_of_word word.now }
{
    if word == b"int32".as_slice() {
        Some(DeclaredType::Int32)
    } else if word == b"int64".as_slice() {
        Some(DeclaredType::Int64)
    } else if word == b"bool".as_slice() {
        Some(DeclaredType::Bool)
    } else {
        None
    }
}

/// The name of a type.
pub fn type_at<'a>(tokens: Tokens<'a>) -> Result<(DeclaredType, Tokens<'a>), WrongToken<'a>>
    ensures { FindsTaken (λ declared. declared) result (first_seen a_type (lexemes_left tokens.entry)) }
{
    match tokens.list {
        [] => Err(WrongToken { left: tokens }),
        [first, ..] => match first.kind {
            TokenKind::Name => {
                match type_of_word(tokens.bytes_at(first.at as usize, first.len as usize)) {
                    Some(declared) => Ok((declared, tokens.tail())),
                    None => Err(WrongToken { left: tokens }),
                }
            }
            _ => Err(WrongToken { left: tokens }),
        },
    }
}
