// Reading expressions from the front of tokens, level by level.
//
// A level is how loosely an expression's form binds: 0 for an atom, 11 for `or`. The room is the
// number of nestings that may still be opened.

ghost use Rattle.std.specs.Prelude.{◌≡◌, ◌≢◌, ◌≤◌, ◌-◌};
ghost use Rattle.kern_expressions.specs.Given.{GivesExpression, symbols_left};
ghost use Rattle.kern_expressions.specs.Kept.{ReadAs};
ghost use Rattle.kern_expressions.specs.Passing.{behind_operand, front_level};
ghost use Rattle.kern_expressions.specs.TakenBy.{TakesExpression, lexemes_left};
ghost use Rattle.kern_grammar.specs.Reading.{comparison_behind, end_of_comparison, inside_of, level_reader, not_at, prefixed, row_behind, unary_at};
ghost use Rattle.kern_grammar.specs.SimplePlans.{take_expression};
ghost use Rattle.kern_syntax.specs.Tree.{Expression};

use crate::atom::atom_at;
use crate::operator::{begins_with_not, comparison_at, joiner_at, level_of_operator, prefix_at};
use crate::parts::{ReadExpr, compared, joined, negated, with_prefix};
use crate::tokens::{Tokens, WrongToken};
use std::alloc::Global;

/// The level of a whole expression.
pub const LOOSEST: u32 = 11;

// The most operators of one level in a row.
const MOST_TURNS: u32 = 16;

/// The level at which what stands first is read: that of `not` where it stands first and may stand
/// there, else that of prefixes, or of atoms where no more is asked for.
pub fn front_level(level: u32, tokens: Tokens) -> u32
    ensures { result ≡ front_level level (symbols_left tokens.entry) }
{
    if level >= 9 && begins_with_not(tokens) {
        9
    } else {
        level.min(1)
    }
}

/// An expression at a level.
#[cycle(levels)]
pub fn level_at<'a>(
    alloc: Global,
    room: u32,
    level: u32,
    tokens: Tokens<'a>,
) -> Result<(ReadExpr, Tokens<'a>), WrongToken<'a>>
    requires { level ≤ 11 }
    ensures { GivesExpression result (level_reader (inside_of room) level (symbols_left tokens.entry)) }
{
    level_here_at(alloc, room, level, tokens)
}

// The same, put into its caller. Only a level of which an operator stands there is entered: the
// others read what the next tighter one reads.
#[cycle(levels)]
#[inline(always)]
fn level_here_at<'a>(
    alloc: Global,
    room: u32,
    level: u32,
    tokens: Tokens<'a>,
) -> Result<(ReadExpr, Tokens<'a>), WrongToken<'a>>
    requires { level ≤ 11 }
    ensures { GivesExpression result (level_reader (inside_of room) level (symbols_left tokens.entry)) }
{
    let mut reached = front_level(level, tokens);
    let (first, after) = front_at(alloc, room, reached, tokens)?;
    let mut e = first;
    let mut rest = after;
    'levels: loop {
        let next = level_of_operator(rest);
        if next <= reached {
            return Ok((e, rest));
        }
        if next > level {
            return Ok((e, rest));
        }
        let (longer, behind) = operators_at(alloc, room, next, e, rest)?;
        e = longer;
        rest = behind;
        reached = next;
    }
}

// What stands before the operators: an atom, a prefix and its operand, or `not` and its operand.
#[cycle(levels)]
#[inline(always)]
fn front_at<'a>(
    alloc: Global,
    room: u32,
    level: u32,
    tokens: Tokens<'a>,
) -> Result<(ReadExpr, Tokens<'a>), WrongToken<'a>>
    requires { (level ≢ 0) → (level ≢ 9) → level ≡ 1 }
    ensures { GivesExpression result (level_reader (inside_of room) level (symbols_left tokens.entry)) }
{
    match level {
        0 => atom_at(alloc, room, tokens),
        9 => negation_at(alloc, room, tokens),
        _ => prefixed_at(alloc, room, tokens),
    }
}

// What goes on with an operand at a level, of which an operator stands there.
#[cycle(levels)]
#[inline(always)]
fn operators_at<'a>(
    alloc: Global,
    room: u32,
    level: u32,
    left: ReadExpr,
    tokens: Tokens<'a>,
) -> Result<(ReadExpr, Tokens<'a>), WrongToken<'a>>
    requires positive { 1 ≤ level }
    requires known { level ≤ 11 }
    ensures { (e : Expression) → ReadAs left e → GivesExpression result
        (behind_operand level (level_reader (inside_of room) (level - 1)) e (symbols_left tokens.entry)) }
{
    match level {
        8 => compared_at(alloc, room, left, tokens),
        _ => row_at(alloc, room, level, left, tokens),
    }
}

// A row of operators of a level, behind its first operand.
#[cycle(levels)]
#[inline(always)]
fn row_at<'a>(
    alloc: Global,
    room: u32,
    level: u32,
    left: ReadExpr,
    tokens: Tokens<'a>,
) -> Result<(ReadExpr, Tokens<'a>), WrongToken<'a>>
    requires positive { 1 ≤ level }
    requires known { level ≤ 11 }
    ensures { (e : Expression) → ReadAs left e → GivesExpression result
        (row_behind 16 level (level_reader (inside_of room) (level - 1)) e (symbols_left tokens.entry)) }
{
    let mut e = left;
    let mut rest = tokens;
    let mut more = MOST_TURNS;
    'turns: loop {
        let joiner = match joiner_at(level, rest) {
            None => return Ok((e, rest)),
            Some(joiner) => joiner,
        };
        if more == 0 {
            return Err(WrongToken { left: rest });
        }
        let (right, behind) = level_at(alloc, room, level - 1, rest.tail())?;
        e = joined(alloc, joiner, e, right);
        rest = behind;
        more -= 1;
    }
}

// A prefix and its operand, or an atom.
#[cycle(levels)]
#[inline(always)]
fn prefixed_at<'a>(
    alloc: Global,
    room: u32,
    tokens: Tokens<'a>,
) -> Result<(ReadExpr, Tokens<'a>), WrongToken<'a>>
    ensures { GivesExpression result
        (prefixed unary_at (inside_of room) 1 (level_reader (inside_of room) 0) (symbols_left tokens.entry)) }
{
    let op = match prefix_at(tokens) {
        None => return atom_at(alloc, room, tokens),
        Some(op) => op,
    };
    if room == 0 {
        return Err(WrongToken { left: tokens });
    }
    let (operand, rest) = level_at(alloc, room - 1, 1, tokens.tail())?;
    Ok((with_prefix(alloc, op, operand), rest))
}

// A comparison that no other follows, behind its left operand.
#[cycle(levels)]
#[inline(always)]
fn compared_at<'a>(
    alloc: Global,
    room: u32,
    left: ReadExpr,
    tokens: Tokens<'a>,
) -> Result<(ReadExpr, Tokens<'a>), WrongToken<'a>>
    ensures { (e : Expression) → ReadAs left e → GivesExpression result
        (comparison_behind (level_reader (inside_of room) 7) e (symbols_left tokens.entry)) }
{
    let op = match comparison_at(tokens) {
        None => return Ok((left, tokens)),
        Some(op) => op,
    };
    let (right, rest) = level_at(alloc, room, 7, tokens.tail())?;
    ended_comparison(compared(alloc, op, left, right), rest)
}

// A comparison, unless another follows it.
#[inline(always)]
fn ended_comparison<'a>(
    e: ReadExpr,
    tokens: Tokens<'a>,
) -> Result<(ReadExpr, Tokens<'a>), WrongToken<'a>>
    ensures { (tree : Expression) → ReadAs e tree →
        GivesExpression result (end_of_comparison tree (symbols_left tokens.entry)) }
{
    match comparison_at(tokens) {
        None => Ok((e, tokens)),
        Some(_) => Err(WrongToken { left: tokens }),
    }
}

// `not` and its operand, or a comparison.
#[cycle(levels)]
#[inline(always)]
fn negation_at<'a>(
    alloc: Global,
    room: u32,
    tokens: Tokens<'a>,
) -> Result<(ReadExpr, Tokens<'a>), WrongToken<'a>>
    ensures { GivesExpression result
        (prefixed not_at (inside_of room) 9 (level_reader (inside_of room) 8) (symbols_left tokens.entry)) }
{
    if !begins_with_not(tokens) {
        return level_at(alloc, room, 8, tokens);
    }
    if room == 0 {
        return Err(WrongToken { left: tokens });
    }
    let (operand, rest) = level_at(alloc, room - 1, 9, tokens.tail())?;
    Ok((negated(alloc, operand), rest))
}

/// An expression with so much room for nesting.
#[inline(always)]
pub fn expression_at<'a>(
    alloc: Global,
    room: u32,
    tokens: Tokens<'a>,
) -> Result<(ReadExpr, Tokens<'a>), WrongToken<'a>>
    ensures { TakesExpression result (take_expression room (lexemes_left tokens.entry)) }
{
    match level_at(alloc, room, LOOSEST, tokens) {
        Ok((e, rest)) => Ok((e, tokens.last(rest.list.len()))),
        Err(wrong) => Err(WrongToken {
            left: tokens.last(wrong.left.list.len()),
        }),
    }
}

/// The same, put into its caller, with no call on the way to a name with its arguments. It is long,
/// so it is for the one place at which most expressions of a text begin.
#[inline(always)]
pub fn expression_here_at<'a>(
    alloc: Global,
    room: u32,
    tokens: Tokens<'a>,
) -> Result<(ReadExpr, Tokens<'a>), WrongToken<'a>>
    ensures { TakesExpression result (take_expression room (lexemes_left tokens.entry)) }
{
    match level_here_at(alloc, room, LOOSEST, tokens) {
        Ok((e, behind)) => Ok((e, tokens.last(behind.list.len()))),
        Err(end) => Err(WrongToken {
            left: tokens.last(end.left.list.len()),
        }),
    }
}
