// Reading a line: its margin, its words and its end.

ghost use Rattle.std.specs.Prelude.{◌≡◌, ◌+◌, ◌<◌, ◌^◌, ◌++◌, Ok, IfErr, OnOk, ◌==◌, drop, length, position, reverse};
ghost use Rattle.kern_lexer.specs.Lines.{without_comment, without_return};
ghost use Rattle.kern_lexer.specs.Steps.{EndsReading, left_of, line_after};
ghost use Rattle.kern_lexer.specs.Tokens.{ended_line, last_line, line_tokens, newline_after};

use crate::fault::LexEnd;
use crate::layout::{Bracket, Layout};
use crate::margin::read_margin;
use crate::token::{Token, TokenKind};
use crate::words::read_words;
use std::alloc::AllocError;

// A line without the carriage return that stands directly before its line feed.
fn without_return(line: &[u8]) -> &[u8]
    ensures { result.now ≡ without_return line.now }
{
    line.strip_suffix(b"\r").unwrap_or(line)
}

/// The first place of a byte.
pub(crate) fn place_of(byte: u8, bytes: &[u8]) -> Option<usize>
    ensures { result ≡ position (λ b. b == byte) bytes.now }
{
    bytes.iter().position(|b| *b == byte)
}

// A line without its comment.
fn without_comment(line: &[u8]) -> &[u8]
    ensures { result.now ≡ without_comment line.now }
{
    match place_of(b'#', line) {
        Some(len) => &line[..len],
        None => line,
    }
}

// Ends a line that has tokens, which are those from `begun` on, where no bracket is open.
fn end_line(
    tokens: &mut Vec<Token>,
    begun: usize,
    brackets: &[Bracket],
    newline: Token,
) -> Result<(), AllocError>
    ensures { OnOk result (
        let own = drop begun tokens.old.items in
        tokens.new.items ≡ tokens.old.items ++ newline_after own (reverse brackets.now) newline) }
{
    if begun < tokens.len() && brackets.is_empty() {
        tokens.push(newline)?;
    }
    Ok(())
}

// Reads a line: its margin, its words, and its Newline.
fn read_line(
    tokens: &mut Vec<Token>,
    layout: &mut Layout,
    at: usize,
    code: &[u8],
    newline: Token,
) -> Result<(), LexEnd>
    requires { at + length code.now < 2 ^ 32 }
    ensures ok { OnOk result (
        line_after tokens.old.items
        (line_tokens (left_of layout.old) newline.line at code.now newline)
        ≡ Ok (record { tokens = tokens.new.items; left = left_of layout.new })) }
    ensures fault { IfErr result (λ end. EndsReading end
        (line_after tokens.old.items
        (line_tokens (left_of layout.old) newline.line at code.now newline))) }
{
    read_margin(tokens, layout, newline.line, at, code)?;
    let begun = tokens.len();
    read_words(tokens, &mut layout.brackets, newline.line, at, code)?;
    end_line(tokens, begun, &layout.brackets, newline)?;
    Ok(())
}

/// Reads a line that a line feed ends.
pub(crate) fn read_ended_line(
    tokens: &mut Vec<Token>,
    layout: &mut Layout,
    line: u32,
    at: usize,
    bytes: &[u8],
) -> Result<(), LexEnd>
    requires { at + length bytes.now < 2 ^ 32 }
    ensures ok { OnOk result (
        line_after tokens.old.items (ended_line (left_of layout.old) line at bytes.now)
        ≡ Ok (record { tokens = tokens.new.items; left = left_of layout.new })) }
    ensures fault { IfErr result (λ end. EndsReading end
        (line_after tokens.old.items (ended_line (left_of layout.old) line at bytes.now))) }
{
    let newline = Token {
        kind: TokenKind::Newline,
        at: (at + bytes.len()) as u32,
        len: 1,
        line,
    };
    read_line(
        tokens,
        layout,
        at,
        without_comment(without_return(bytes)),
        newline,
    )
}

/// Reads the line behind the last line feed.
pub(crate) fn read_last_line(
    tokens: &mut Vec<Token>,
    layout: &mut Layout,
    line: u32,
    at: usize,
    bytes: &[u8],
) -> Result<(), LexEnd>
    requires { at + length bytes.now < 2 ^ 32 }
    ensures ok { OnOk result (
        line_after tokens.old.items (last_line (left_of layout.old) line at bytes.now)
        ≡ Ok (record { tokens = tokens.new.items; left = left_of layout.new })) }
    ensures fault { IfErr result (λ end. EndsReading end
        (line_after tokens.old.items (last_line (left_of layout.old) line at bytes.now))) }
{
    let newline = Token {
        kind: TokenKind::Newline,
        at: (at + bytes.len()) as u32,
        len: 0,
        line,
    };
    read_line(tokens, layout, at, without_comment(bytes), newline)
}
