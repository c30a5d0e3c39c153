// The headers of blocks, up to their colons.

ghost use Rattle.std.specs.Prelude.{None, Some, true};
ghost use Rattle.kern_grammar.specs.BlockPlans.{range_plan};
ghost use Rattle.kern_statements.specs.Headers.{bounds_of, bounds_plan, bracketed_bounds_plan, quoted_recording_plan, recording_name_plan, with_head, with_item_plan};
ghost use Rattle.kern_grammar.specs.Plans.{done, token};
ghost use Rattle.kern_expressions.specs.TakenBy.{FindsTaken, GivesTaken, lexemes_left, perform};
ghost use Rattle.kern_expressions.specs.Kept.{KeptAs, ReadAs};
ghost use Rattle.kern_grammar.specs.Views.{comma_or_close, recording};
ghost use Rattle.kern_syntax.specs.Tree.{Expression};

use kern_expressions::{
    ReadExpr, Tokens, WrongToken, close_parenthesis_at, dot_at, expression_at, in_at,
    open_parenthesis_at, quoted_name, word_at,
};
use kern_lexer::{Sign, TokenKind};
use kern_syntax::Expr;
use rtio_types::Name;
use std::alloc::Global;

/// The bounds of a `for`: the upper one, and the lower one if it isn't 0.
#[derive(Drop)]
pub struct Bounds {
    pub from: Option<Expr>,
    pub to: Expr,
}

/// What the block of a `with` does with its statements.
#[derive(Drop)]
pub enum WithItem {
    Parallel,
    Sequential,
    /// Its outputs are kept as a recording of this name.
    Record(Name),
}

/// The bounds of a `for`, from its key `in` on, which are missing where memory was refused.
pub fn bounds_at<'a>(
    alloc: Global,
    tokens: Tokens<'a>,
) -> Result<(Option<Bounds>, Tokens<'a>), WrongToken<'a>>
    ensures { GivesTaken bounds_of result
        (perform (bounds_plan (λ from to. done (from, to))) (lexemes_left tokens.entry)) }
{
    let rest = in_at(tokens)?;
    let rest = word_at(b"range", rest)?;
    bracketed_bounds_at(alloc, rest)
}

// The bounds of a `for` in their parentheses.
fn bracketed_bounds_at<'a>(
    alloc: Global,
    tokens: Tokens<'a>,
) -> Result<(Option<Bounds>, Tokens<'a>), WrongToken<'a>>
    ensures { GivesTaken bounds_of result
        (perform (bracketed_bounds_plan (λ from to. done (from, to))) (lexemes_left tokens.entry)) }
{
    let rest = open_parenthesis_at(tokens)?;
    let (first, rest) = expression_at(alloc, 15, rest)?;
    bounds_end_at(alloc, first, rest)
}

// The bounds from 0 to below a number.
fn below(to: ReadExpr) -> Option<Bounds>
    ensures { (t : Expression) → ReadAs to t → KeptAs bounds_of result (None, t) }
{
    let to = to.tree()?;
    Some(Bounds { from: None, to })
}

// The bounds from one number to below another.
fn between(from: ReadExpr, to: ReadExpr) -> Option<Bounds>
    ensures { (f t : Expression) → ReadAs from f → ReadAs to t → KeptAs bounds_of result (Some f, t) }
{
    let from = Some(from.tree()?);
    let to = to.tree()?;
    Some(Bounds { from, to })
}

// The upper bound behind a lower one, if there is one, and the closing parenthesis.
fn bounds_end_at<'a>(
    alloc: Global,
    first: ReadExpr,
    tokens: Tokens<'a>,
) -> Result<(Option<Bounds>, Tokens<'a>), WrongToken<'a>>
    ensures { (e : Expression) → ReadAs first e → GivesTaken bounds_of result
        (perform (token comma_or_close (range_plan (λ from to. done (from, to)) e)) (lexemes_left tokens.entry)) }
{
    match tokens.list {
        [] => Err(WrongToken { left: tokens }),
        [mark, ..] => match mark.kind {
            TokenKind::Sign(sign) => match sign {
                Sign::Comma => upper_bound_at(alloc, first, tokens.tail()),
                Sign::CloseParenthesis => Ok((below(first), tokens.tail())),
                _ => Err(WrongToken { left: tokens }),
            },
            _ => Err(WrongToken { left: tokens }),
        },
    }
}

// The upper bound behind a lower one and its comma, and the closing parenthesis.
fn upper_bound_at<'a>(
    alloc: Global,
    from: ReadExpr,
    tokens: Tokens<'a>,
) -> Result<(Option<Bounds>, Tokens<'a>), WrongToken<'a>>
    ensures { (e : Expression) → ReadAs from e → GivesTaken bounds_of result
        (perform (range_plan (λ from to. done (from, to)) e true) (lexemes_left tokens.entry)) }
{
    let (to, rest) = expression_at(alloc, 15, tokens)?;
    let rest = close_parenthesis_at(rest)?;
    Ok((between(from, to), rest))
}

/// The item of a `with`.
pub fn with_item_at<'a>(tokens: Tokens<'a>) -> Result<(WithItem, Tokens<'a>), WrongToken<'a>>
    ensures { FindsTaken (λ item. item) result
        (perform (with_item_plan (λ item. done item)) (lexemes_left tokens.entry)) }
{
    match tokens.list {
        [] => Err(WrongToken { left: tokens }),
        [first, ..] => match first.kind {
            TokenKind::Name => {
                let word = tokens.bytes_at(first.at as usize, first.len as usize);
                if word == b"parallel".as_slice() {
                    Ok((WithItem::Parallel, tokens.tail()))
                } else if word == b"sequential".as_slice() {
                    Ok((WithItem::Sequential, tokens.tail()))
                } else if word == b"core_dma".as_slice() {
                    recording_at(tokens.tail())
                } else {
                    Err(WrongToken { left: tokens })
                }
            }
            _ => Err(WrongToken { left: tokens }),
        },
    }
}

// The name of a recording, from the dot behind `core_dma` on.
fn recording_at<'a>(tokens: Tokens<'a>) -> Result<(WithItem, Tokens<'a>), WrongToken<'a>>
    ensures { FindsTaken (λ item. item) result
        (perform (with_head (λ item. done item) recording) (lexemes_left tokens.entry)) }
{
    let rest = dot_at(tokens)?;
    let rest = word_at(b"record", rest)?;
    recording_name_at(rest)
}

// The name of a recording in its parentheses.
fn recording_name_at<'a>(tokens: Tokens<'a>) -> Result<(WithItem, Tokens<'a>), WrongToken<'a>>
    ensures { FindsTaken (λ item. item) result
        (perform (recording_name_plan (λ item. done item)) (lexemes_left tokens.entry)) }
{
    let rest = open_parenthesis_at(tokens)?;
    quoted_recording_at(rest)
}

// The quoted name of a recording, and the closing parenthesis.
fn quoted_recording_at<'a>(tokens: Tokens<'a>) -> Result<(WithItem, Tokens<'a>), WrongToken<'a>>
    ensures { FindsTaken (λ item. item) result
        (perform (quoted_recording_plan (λ item. done item)) (lexemes_left tokens.entry)) }
{
    match tokens.list {
        [] => Err(WrongToken { left: tokens }),
        [first, ..] => match first.kind {
            TokenKind::Text => {
                let name = quoted_name(tokens, first.at, first.len);
                let rest = close_parenthesis_at(tokens.tail())?;
                Ok((WithItem::Record(name), rest))
            }
            _ => Err(WrongToken { left: tokens }),
        },
    }
}
