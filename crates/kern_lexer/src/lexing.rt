// Going over the lines of a text.

ghost use Rattle.std.specs.Prelude.{◌≡◌, ◌<◌, ◌^◌, ◌++◌, ◌∷◌, [], List, IfErr, IfOk, MatchResult, OnOk, length, replicate};
ghost use Rattle.kern_lexer.specs.Answers.{HasFault, HasTokens, IsEndOf, IsEndAt, IsMemory};
ghost use Rattle.kern_lexer.specs.Faults.{LexFault};
ghost use Rattle.kern_lexer.specs.Tokens.{marks_at};
ghost use Rattle.kern_lexer.specs.declared.token.Token.{Token};

use crate::fault::LexEnd;
use crate::layout::Layout;
use crate::line::{place_of, read_ended_line, read_last_line};
use crate::token::{Token, TokenKind};
use crate::words::push_token;
use std::alloc::{AllocError, Global};

// Ends a text that has so many widths open: a Dedent for each, and End.
fn end_text(tokens: &mut Vec<Token>, depth: usize, line: u32, at: usize) -> Result<(), AllocError>
    requires { at < 2 ^ 32 }
    ensures { OnOk result (
        let ends = replicate depth TokenKind.Dedent ++ TokenKind.End ∷ [] in
        tokens.new.items ≡ tokens.old.items ++ marks_at line at ends) }
{
    for _closed in 0..depth {
        push_token(tokens, TokenKind::Dedent, line, at, 0)?;
    }
    push_token(tokens, TokenKind::End, line, at, 0)
}

/// The tokens of a kernel's text: a part of Python's lexical structure, with the limits of this
/// project. `docs/LANGUAGE.md` has the rules.
///
/// A text without tokens gives its first fault, by the place of the first byte of what is wrong.
/// `Memory` says only that there was no room for the tokens.
pub fn lex(alloc: Global, bytes: &[u8]) -> Result<Vec<Token>, LexEnd>
    requires { length bytes.now < 2 ^ 31 }
    ensures tokens { IfOk result (λ v. HasTokens bytes.now v.items) }
    ensures fault { IfErr result (IsEndOf bytes.now) }
    ensures only { (tokens : List Token) → HasTokens bytes.now tokens →
        MatchResult result (λ v. v.items ≡ tokens) IsMemory }
    ensures refused { (fault : LexFault) → HasFault bytes.now fault →
        MatchResult result (λ v. ⊥) (IsEndAt fault) }
{
    let mut tokens = Vec::new(alloc);
    let mut layout = Layout {
        widths: Vec::new(alloc),
        brackets: Vec::new(alloc),
    };
    let mut line = 1;
    let mut at = 0;
    let mut rest = bytes;
    while let Some(len) = place_of(b'\n', rest) {
        read_ended_line(&mut tokens, &mut layout, line, at, &rest[..len])?;
        line += 1;
        at += len + 1;
        rest = &rest[len + 1..];
    }
    read_last_line(&mut tokens, &mut layout, line, at, rest)?;
    end_text(&mut tokens, layout.widths.len(), line, bytes.len())?;
    Ok(tokens)
}
