// Reading the words of a line.

ghost use Rattle.std.specs.Prelude.{◌≡◌, ◌+◌, ◌<◌, ◌≤◌, ◌^◌, ◌++◌, ◌∷◌, [], Ok, IfOk, IfErr, OnOk, length, reverse};
ghost use Rattle.kern_lexer.specs.Steps.{EndsReading, step_from, words_read};

use crate::fault::LexEnd;
use crate::front::{Front, front_of};
use crate::layout::{Bracket, note_bracket};
use crate::token::{Token, TokenKind};
use std::alloc::AllocError;

/// One more token.
pub(crate) fn push_token(
    tokens: &mut Vec<Token>,
    kind: TokenKind,
    line: u32,
    at: usize,
    len: usize,
) -> Result<(), AllocError>
    requires at_fits { at < 2 ^ 32 }
    requires len_fits { len < 2 ^ 32 }
    ensures { OnOk result (tokens.new.items ≡
        tokens.old.items ++ record { kind = kind; at = at; len = len; line = line } ∷ []) }
{
    tokens.push(Token {
        kind,
        at: at as u32,
        len: len as u32,
        line,
    })?;
    Ok(())
}

// Reads what stands at the front of a line's bytes, and gives how many bytes that are.
fn read_front(
    tokens: &mut Vec<Token>,
    brackets: &mut Vec<Bracket>,
    line: u32,
    at: usize,
    rest: &[u8],
) -> Result<usize, LexEnd>
    requires some { 0 < length rest.now }
    requires below { at + length rest.now < 2 ^ 32 }
    ensures within { IfOk result (λ len. (0 < len) × (len ≤ length rest.now)) }
    ensures ok { IfOk result (λ len.
        step_from tokens.old.items (reverse brackets.old.items) line at rest.now
        ≡ Ok (len, (tokens.new.items, reverse brackets.new.items))) }
    ensures fault { IfErr result (λ end.
        EndsReading end (step_from tokens.old.items (reverse brackets.old.items) line at rest.now)) }
{
    match front_of(rest) {
        Ok(Front::Space) => Ok(1),
        Ok(Front::Token { kind, len }) => {
            push_token(tokens, kind, line, at, len)?;
            note_bracket(brackets, kind)?;
            Ok(len)
        }
        Err(kind) => Err(LexEnd::Fault {
            at: at as u32,
            kind,
        }),
    }
}

/// Reads the words of a line.
pub(crate) fn read_words(
    tokens: &mut Vec<Token>,
    brackets: &mut Vec<Bracket>,
    line: u32,
    start: usize,
    code: &[u8],
) -> Result<(), LexEnd>
    requires { start + length code.now < 2 ^ 32 }
    ensures ok { OnOk result (
        words_read tokens.old.items (reverse brackets.old.items) line start code.now
        ≡ Ok (tokens.new.items, reverse brackets.new.items)) }
    ensures fault { IfErr result (λ end. EndsReading end
        (words_read tokens.old.items (reverse brackets.old.items) line start code.now)) }
{
    let mut at = start;
    let mut rest = code;
    while !rest.is_empty() {
        if rest[0] == b' ' {
            at += 1;
            rest = &rest[1..];
            continue;
        }
        let len = read_front(tokens, brackets, line, at, rest)?;
        at += len;
        rest = &rest[len..];
    }
    Ok(())
}
