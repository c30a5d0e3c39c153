// The leading spaces of a line against the widths that are open.

ghost use Rattle.std.specs.Prelude.{◌≡◌, ◌+◌, ◌-◌, ◌<◌, ◌^◌, ◌++◌, Ok, IfErr, OnOk, drop, length, replicate, reverse, vec_len};
ghost use Rattle.kern_lexer.specs.Margins.{closed_down_to, leading_spaces, top_of};
ghost use Rattle.kern_lexer.specs.Steps.{EndsReading, left_of, margin_marked, margin_read};
ghost use Rattle.kern_lexer.specs.Tokens.{marks_at};

use crate::fault::{LexEnd, LexKind};
use crate::front::begins_token;
use crate::layout::Layout;
use crate::token::{Token, TokenKind};
use crate::words::push_token;
use std::alloc::AllocError;

// How many spaces a line begins with.
fn leading_spaces(code: &[u8]) -> usize
    ensures { result ≡ leading_spaces code.now }
{
    code.iter().take_while(|b| **b == b' ').count()
}

// The last width that is open; below all lies 0.
fn top_of(widths: &[usize]) -> usize
    ensures { result ≡ top_of (reverse widths.now) }
{
    widths.last().copied().unwrap_or(0)
}

// Closes the widths above this one, each by a Dedent.
fn close_widths(
    tokens: &mut Vec<Token>,
    widths: &mut Vec<usize>,
    line: u32,
    at: usize,
    width: usize,
) -> Result<(), AllocError>
    requires { at < 2 ^ 32 }
    ensures widths { OnOk result (
        reverse widths.new.items ≡ closed_down_to width (reverse widths.old.items)) }
    ensures tokens { OnOk result (
        let closed = vec_len widths.old - vec_len widths.new in
        tokens.new.items ≡ tokens.old.items ++ marks_at line at (replicate closed TokenKind.Dedent)) }
{
    while width < top_of(widths) {
        widths.pop();
        push_token(tokens, TokenKind::Dedent, line, at, 0)?;
    }
    Ok(())
}

// Compares a line's leading spaces with the widths that are open.
fn mark_margin(
    tokens: &mut Vec<Token>,
    widths: &mut Vec<usize>,
    line: u32,
    at: usize,
    width: usize,
) -> Result<(), LexEnd>
    requires { at < 2 ^ 32 }
    ensures ok { OnOk result (
        margin_marked tokens.old.items (reverse widths.old.items) line at width
        ≡ Ok (tokens.new.items, reverse widths.new.items)) }
    ensures fault { IfErr result (λ end. EndsReading end
        (margin_marked tokens.old.items (reverse widths.old.items) line at width)) }
{
    if width > top_of(widths) {
        widths.push(width).map_err(AllocError::from)?;
        push_token(tokens, TokenKind::Indent, line, at, 0)?;
        return Ok(());
    }
    close_widths(tokens, widths, line, at, width)?;
    if width == top_of(widths) {
        Ok(())
    } else {
        Err(LexEnd::Fault {
            at: at as u32,
            kind: LexKind::Indent,
        })
    }
}

// A line without its leading spaces.
#[tactic(auto, using(crate::proofs::MarginLemmas::width_within))]
fn without_spaces(code: &[u8]) -> &[u8]
    ensures { result.now ≡ drop (leading_spaces code.now) code.now }
{
    &code[leading_spaces(code)..]
}

/// Compares the leading spaces of a line that begins outside brackets and has a token.
pub(crate) fn read_margin(
    tokens: &mut Vec<Token>,
    layout: &mut Layout,
    line: u32,
    at: usize,
    code: &[u8],
) -> Result<(), LexEnd>
    requires { at + length code.now < 2 ^ 32 }
    ensures ok { OnOk result (
        margin_read tokens.old.items (left_of layout.old) line at code.now
        ≡ Ok (tokens.new.items, reverse layout.new.widths.items)) }
    ensures fault { IfErr result (λ end. EndsReading end
        (margin_read tokens.old.items (left_of layout.old) line at code.now)) }
    ensures brackets { layout.new.brackets ≡ layout.old.brackets }
{
    let width = leading_spaces(code);
    if layout.brackets.is_empty() && begins_token(without_spaces(code)) {
        mark_margin(tokens, &mut layout.widths, line, at + width, width)?;
    }
    Ok(())
}
