// Single tokens that must stand at the front.

ghost use Rattle.kern_expressions.specs.TakenBy.{FindsRest, first_seen, lexemes_left};
ghost use Rattle.kern_grammar.specs.Views.{close_bracket, close_parenthesis, colon, dedented, def_key, dot, in_key, indented, line_end, open_parenthesis};

use crate::tokens::{Tokens, WrongToken};
use kern_lexer::{Key, Sign, TokenKind};

// The tokens behind the first, which matches a pattern.
macro_rules! behind {
    ($tokens:expr, $pattern:pat) => {
        match $tokens.list {
            [] => Err(WrongToken { left: $tokens }),
            [first, ..] => match first.kind {
                $pattern => Ok($tokens.tail()),
                _ => Err(WrongToken { left: $tokens }),
            },
        }
    };
}

/// A Newline.
pub fn line_end_at<'a>(tokens: Tokens<'a>) -> Result<Tokens<'a>, WrongToken<'a>>
    ensures { FindsRest result (first_seen line_end (lexemes_left tokens.entry)) }
{
    behind!(tokens, TokenKind::Newline)
}

/// An Indent.
pub fn indent_at<'a>(tokens: Tokens<'a>) -> Result<Tokens<'a>, WrongToken<'a>>
    ensures { FindsRest result (first_seen indented (lexemes_left tokens.entry)) }
{
    behind!(tokens, TokenKind::Indent)
}

/// A Dedent.
pub fn dedent_at<'a>(tokens: Tokens<'a>) -> Result<Tokens<'a>, WrongToken<'a>>
    ensures { FindsRest result (first_seen dedented (lexemes_left tokens.entry)) }
{
    behind!(tokens, TokenKind::Dedent)
}

/// A colon.
pub fn colon_at<'a>(tokens: Tokens<'a>) -> Result<Tokens<'a>, WrongToken<'a>>
    ensures { FindsRest result (first_seen colon (lexemes_left tokens.entry)) }
{
    behind!(tokens, TokenKind::Sign(Sign::Colon))
}

/// A closing bracket.
pub fn close_bracket_at<'a>(tokens: Tokens<'a>) -> Result<Tokens<'a>, WrongToken<'a>>
    ensures { FindsRest result (first_seen close_bracket (lexemes_left tokens.entry)) }
{
    behind!(tokens, TokenKind::Sign(Sign::CloseBracket))
}

/// An opening parenthesis.
pub fn open_parenthesis_at<'a>(tokens: Tokens<'a>) -> Result<Tokens<'a>, WrongToken<'a>>
    ensures { FindsRest result (first_seen open_parenthesis (lexemes_left tokens.entry)) }
{
    behind!(tokens, TokenKind::Sign(Sign::OpenParenthesis))
}

/// A closing parenthesis.
pub fn close_parenthesis_at<'a>(tokens: Tokens<'a>) -> Result<Tokens<'a>, WrongToken<'a>>
    ensures { FindsRest result (first_seen close_parenthesis (lexemes_left tokens.entry)) }
{
    behind!(tokens, TokenKind::Sign(Sign::CloseParenthesis))
}

/// A dot.
pub fn dot_at<'a>(tokens: Tokens<'a>) -> Result<Tokens<'a>, WrongToken<'a>>
    ensures { FindsRest result (first_seen dot (lexemes_left tokens.entry)) }
{
    behind!(tokens, TokenKind::Sign(Sign::Dot))
}

/// The key `in`.
pub fn in_at<'a>(tokens: Tokens<'a>) -> Result<Tokens<'a>, WrongToken<'a>>
    ensures { FindsRest result (first_seen in_key (lexemes_left tokens.entry)) }
{
    behind!(tokens, TokenKind::Key(Key::In))
}

/// The key `def`.
pub fn def_at<'a>(tokens: Tokens<'a>) -> Result<Tokens<'a>, WrongToken<'a>>
    ensures { FindsRest result (first_seen def_key (lexemes_left tokens.entry)) }
{
    behind!(tokens, TokenKind::Key(Key::Def))
}
