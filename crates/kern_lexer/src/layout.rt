// What a line leaves to the next: open blocks and open brackets.

ghost use Rattle.std.specs.Prelude.{◌≡◌, reverse, OnOk};
ghost use Rattle.kern_lexer.specs.Brackets.{open_after, without_last};

use crate::token::{Sign, TokenKind};
use std::alloc::AllocError;

/// The shape of an open bracket.
#[derive(Clone, Copy, PartialEq, Eq, Debug, Drop)]
pub(crate) enum Bracket {
    Round,
    Square,
}

/// What a line leaves to the next: the widths of the blocks that are open, each above the one
/// before it, and the open brackets, the last of each at the end.
#[derive(Drop)]
pub(crate) struct Layout {
    pub widths: Vec<usize>,
    pub brackets: Vec<Bracket>,
}

/// Opens a bracket, or closes the last one where it is of the closing sign's shape.
pub(crate) fn note_bracket(brackets: &mut Vec<Bracket>, kind: TokenKind) -> Result<(), AllocError>
    ensures { OnOk result (
        reverse brackets.new.items ≡ open_after (reverse brackets.old.items) kind) }
{
    match kind {
        TokenKind::Sign(Sign::OpenParenthesis) => brackets.push(Bracket::Round)?,
        TokenKind::Sign(Sign::OpenBracket) => brackets.push(Bracket::Square)?,
        TokenKind::Sign(Sign::CloseParenthesis) => close(brackets, Bracket::Round),
        TokenKind::Sign(Sign::CloseBracket) => close(brackets, Bracket::Square),
        _ => {}
    }
    Ok(())
}

// Closes the last bracket where it is of this shape.
fn close(brackets: &mut Vec<Bracket>, shape: Bracket)
    ensures { reverse brackets.new.items ≡ without_last shape (reverse brackets.old.items) }
{
    if brackets.last() == Some(&shape) {
        brackets.pop();
    }
}
