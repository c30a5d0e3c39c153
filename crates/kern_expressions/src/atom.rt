// Reading atoms from the front of tokens: integers, truth values, names with what they are used
// for, and expressions in parentheses.

ghost use Rattle.std.specs.Prelude.{◌≡◌, ◌+◌, ◌-◌, suc, length, IsTrue};
ghost use Rattle.kern_lexer.specs.Bytes.{Bytes};
ghost use Rattle.kern_lexer.specs.Names.{is_quotable};
ghost use Rattle.kern_lexer.specs.Symbols.{bytes_at};
ghost use Rattle.kern_expressions.specs.Given.{FindsRead, GivesExpression, GivesRead, symbols_left};
ghost use Rattle.kern_expressions.specs.Kept.{IsNamed, ReadAs, item_of};
ghost use Rattle.kern_grammar.specs.Reading.{arguments, atom, bare_atom, behind_dot, behind_method, behind_name, closed, comma_or_close, enclosed, ended, is_close_bracket, is_close_parenthesis, item, items, value_item, inside_of};
ghost use Rattle.kern_syntax.specs.Tree.{Expression, element, group};
ghost use Rattle.kern_syntax.specs.TreeOf.{arguments_of};

use crate::expression::{LOOSEST, level_at};
use crate::operator::begins_with_argument_end;
use crate::parts::{
    ReadExpr, argument, called, grouped, identifier, indexed, method_called, named, pushed,
};
use crate::tokens::{Tokens, WrongToken};
use kern_lexer::{Key, Sign, TokenKind};
use kern_syntax::{Argument, Expr, Identifier};
use rtio_types::Name;
use std::alloc::Global;

// What is read up to a closing parenthesis.
#[inline(always)]
fn close_parenthesis<'a>(
    e: ReadExpr,
    tokens: Tokens<'a>,
) -> Result<(ReadExpr, Tokens<'a>), WrongToken<'a>>
    ensures { (tree : Expression) → ReadAs e tree →
        GivesExpression result (closed is_close_parenthesis tree (symbols_left tokens.entry)) }
{
    match tokens.list {
        [] => Err(WrongToken { left: tokens }),
        [first, ..] => match first.kind {
            TokenKind::Sign(Sign::CloseParenthesis) => Ok((e, tokens.tail())),
            _ => Err(WrongToken { left: tokens }),
        },
    }
}

// What is read up to a closing bracket.
#[inline(always)]
fn close_bracket<'a>(
    e: ReadExpr,
    tokens: Tokens<'a>,
) -> Result<(ReadExpr, Tokens<'a>), WrongToken<'a>>
    ensures { (tree : Expression) → ReadAs e tree →
        GivesExpression result (closed is_close_bracket tree (symbols_left tokens.entry)) }
{
    match tokens.list {
        [] => Err(WrongToken { left: tokens }),
        [first, ..] => match first.kind {
            TokenKind::Sign(Sign::CloseBracket) => Ok((e, tokens.tail())),
            _ => Err(WrongToken { left: tokens }),
        },
    }
}

/// An atom that no opening bracket and no dot follows.
#[cycle(levels)]
#[inline(always)]
pub fn atom_at<'a>(
    alloc: Global,
    room: u32,
    tokens: Tokens<'a>,
) -> Result<(ReadExpr, Tokens<'a>), WrongToken<'a>>
    ensures { GivesExpression result (atom (inside_of room) (symbols_left tokens.entry)) }
{
    let (e, behind) = bare_atom_at(alloc, room, tokens)?;
    ended_atom(e, behind)
}

#[inline(always)]
fn ended_atom<'a>(e: ReadExpr, tokens: Tokens<'a>) -> Result<(ReadExpr, Tokens<'a>), WrongToken<'a>>
    ensures { (tree : Expression) → ReadAs e tree →
        GivesExpression result (ended tree (symbols_left tokens.entry)) }
{
    match tokens.list {
        [] => Ok((e, tokens)),
        [first, ..] => match first.kind {
            TokenKind::Sign(Sign::OpenParenthesis | Sign::OpenBracket | Sign::Dot) => {
                Err(WrongToken { left: tokens })
            }
            _ => Ok((e, tokens)),
        },
    }
}

// An atom, whatever follows it.
#[cycle(levels)]
#[inline(always)]
fn bare_atom_at<'a>(
    alloc: Global,
    room: u32,
    tokens: Tokens<'a>,
) -> Result<(ReadExpr, Tokens<'a>), WrongToken<'a>>
    ensures { GivesExpression result (bare_atom (inside_of room) (symbols_left tokens.entry)) }
{
    match tokens.list {
        [] => Err(WrongToken { left: tokens }),
        [first, ..] => match first.kind {
            TokenKind::Integer(n) => Ok((ReadExpr::Kept(Expr::Integer(n)), tokens.tail())),
            TokenKind::Name => {
                let bytes = tokens.bytes_at(first.at as usize, first.len as usize);
                let name = identifier(alloc, bytes);
                named_at(alloc, room, name, tokens.tail())
            }
            TokenKind::Key(key) => match key {
                Key::True => Ok((ReadExpr::Kept(Expr::True), tokens.tail())),
                Key::False => Ok((ReadExpr::Kept(Expr::False), tokens.tail())),
                _ => Err(WrongToken { left: tokens }),
            },
            TokenKind::Sign(sign) => match sign {
                Sign::OpenParenthesis => group_at(alloc, room, tokens),
                _ => Err(WrongToken { left: tokens }),
            },
            _ => Err(WrongToken { left: tokens }),
        },
    }
}

// An expression in parentheses, of which the opening one is the first token.
#[cycle(levels)]
#[inline(always)]
fn group_at<'a>(
    alloc: Global,
    room: u32,
    tokens: Tokens<'a>,
) -> Result<(ReadExpr, Tokens<'a>), WrongToken<'a>>
    ensures { GivesExpression result
        (enclosed (inside_of room) is_close_parenthesis group (symbols_left tokens.entry)) }
{
    if room == 0 {
        return Err(WrongToken { left: tokens });
    }
    let (e, behind) = level_at(alloc, room - 1, LOOSEST, tokens.tail())?;
    close_parenthesis(grouped(alloc, e), behind)
}

// An element of an array, from the opening bracket of its index on.
#[cycle(levels)]
#[inline(always)]
fn element_at<'a>(
    alloc: Global,
    room: u32,
    array: Option<Identifier>,
    tokens: Tokens<'a>,
) -> Result<(ReadExpr, Tokens<'a>), WrongToken<'a>>
    ensures { (x : Bytes) → IsNamed array x → GivesExpression result
        (enclosed (inside_of room) is_close_bracket (element x) (symbols_left tokens.entry)) }
{
    if room == 0 {
        return Err(WrongToken { left: tokens });
    }
    let (index, behind) = level_at(alloc, room - 1, LOOSEST, tokens.tail())?;
    close_bracket(indexed(alloc, array, index), behind)
}

// A name with an index, with arguments, with a method, or alone, from what follows the name on.
#[cycle(levels)]
#[inline(always)]
fn named_at<'a>(
    alloc: Global,
    room: u32,
    name: Option<Identifier>,
    tokens: Tokens<'a>,
) -> Result<(ReadExpr, Tokens<'a>), WrongToken<'a>>
    ensures { (x : Bytes) → IsNamed name x →
        GivesExpression result (behind_name (inside_of room) x (symbols_left tokens.entry)) }
{
    match tokens.list {
        [] => Ok((named(name), tokens)),
        [first, ..] => match first.kind {
            TokenKind::Sign(sign) => match sign {
                Sign::OpenBracket => element_at(alloc, room, name, tokens),
                Sign::OpenParenthesis => {
                    let (arguments, rest) = arguments_at(alloc, room, tokens.tail())?;
                    Ok((called(name, arguments), rest))
                }
                Sign::Dot => method_at(alloc, room, name, tokens.tail()),
                _ => Ok((named(name), tokens)),
            },
            _ => Ok((named(name), tokens)),
        },
    }
}

// The method of an object, from what follows the dot on.
#[cycle(levels)]
#[inline(always)]
fn method_at<'a>(
    alloc: Global,
    room: u32,
    object: Option<Identifier>,
    tokens: Tokens<'a>,
) -> Result<(ReadExpr, Tokens<'a>), WrongToken<'a>>
    ensures { (x : Bytes) → IsNamed object x →
        GivesExpression result (behind_dot (inside_of room) x (symbols_left tokens.entry)) }
{
    match tokens.list {
        [] => Err(WrongToken { left: tokens }),
        [first, ..] => match first.kind {
            TokenKind::Name => {
                let bytes = tokens.bytes_at(first.at as usize, first.len as usize);
                let method = identifier(alloc, bytes);
                called_method_at(alloc, room, object, method, tokens.tail())
            }
            _ => Err(WrongToken { left: tokens }),
        },
    }
}

// A call of a method, from what follows its name on.
#[cycle(levels)]
#[inline(always)]
fn called_method_at<'a>(
    alloc: Global,
    room: u32,
    object: Option<Identifier>,
    method: Option<Identifier>,
    tokens: Tokens<'a>,
) -> Result<(ReadExpr, Tokens<'a>), WrongToken<'a>>
    ensures { (x m : Bytes) → IsNamed object x → IsNamed method m →
        GivesExpression result (behind_method (inside_of room) x m (symbols_left tokens.entry)) }
{
    match tokens.list {
        [] => Err(WrongToken { left: tokens }),
        [first, ..] => match first.kind {
            TokenKind::Sign(sign) => match sign {
                Sign::OpenParenthesis => {
                    let (arguments, rest) = arguments_at(alloc, room, tokens.tail())?;
                    Ok((method_called(object, method, arguments), rest))
                }
                _ => Err(WrongToken { left: tokens }),
            },
            _ => Err(WrongToken { left: tokens }),
        },
    }
}

/// What stands behind an argument: a comma, so that another follows, or the closing parenthesis.
#[inline(always)]
pub fn comma_or_close<'a>(tokens: Tokens<'a>) -> Result<(bool, Tokens<'a>), WrongToken<'a>>
    ensures { FindsRead (λ more. more) result (comma_or_close (symbols_left tokens.entry)) }
{
    match tokens.list {
        [] => Err(WrongToken { left: tokens }),
        [first, ..] => match first.kind {
            TokenKind::Sign(sign) => match sign {
                Sign::Comma => Ok((true, tokens.tail())),
                Sign::CloseParenthesis => Ok((false, tokens.tail())),
                _ => Err(WrongToken { left: tokens }),
            },
            _ => Err(WrongToken { left: tokens }),
        },
    }
}

// The arguments of a call and the closing parenthesis, from what follows the opening one on.
#[cycle(levels)]
#[inline(always)]
fn arguments_at<'a>(
    alloc: Global,
    room: u32,
    tokens: Tokens<'a>,
) -> Result<(Option<Vec<Argument>>, Tokens<'a>), WrongToken<'a>>
    ensures { GivesRead (λ args. arguments_of args.items) result
        (arguments (inside_of room) (symbols_left tokens.entry)) }
{
    match tokens.list {
        [] => items_at(alloc, room, tokens),
        [first, ..] => match first.kind {
            TokenKind::Sign(sign) => match sign {
                Sign::CloseParenthesis => Ok((Some(Vec::new(alloc)), tokens.tail())),
                _ => items_at(alloc, room, tokens),
            },
            _ => items_at(alloc, room, tokens),
        },
    }
}

// At least one argument, and the closing parenthesis.
#[cycle(levels)]
#[inline(always)]
fn items_at<'a>(
    alloc: Global,
    room: u32,
    tokens: Tokens<'a>,
) -> Result<(Option<Vec<Argument>>, Tokens<'a>), WrongToken<'a>>
    ensures { GivesRead (λ args. arguments_of args.items) result
        (items (inside_of room) (suc (length (symbols_left tokens.entry))) (symbols_left tokens.entry)) }
{
    let mut arguments = Some(Vec::new(alloc));
    let mut rest = tokens;
    'items: loop {
        let (argument, behind) = argument_at(alloc, room, rest)?;
        arguments = pushed(arguments, argument);
        let (more, next) = comma_or_close(behind)?;
        if !more {
            return Ok((arguments, next));
        }
        rest = next;
    }
}

// An argument: an expression, or a text in quotes.
#[cycle(levels)]
#[inline(always)]
fn argument_at<'a>(
    alloc: Global,
    room: u32,
    tokens: Tokens<'a>,
) -> Result<(Option<Argument>, Tokens<'a>), WrongToken<'a>>
    ensures { GivesRead item_of result (item (inside_of room) (symbols_left tokens.entry)) }
{
    match tokens.list {
        [] => value_at(alloc, room, tokens),
        [first, ..] => match first.kind {
            TokenKind::Text => {
                let name = quoted_name(tokens, first.at, first.len);
                Ok((Some(Argument::Text(name)), tokens.tail()))
            }
            TokenKind::Integer(n) => {
                let behind = tokens.tail();
                if begins_with_argument_end(behind) && room > 0 {
                    Ok((Some(Argument::Value(Expr::Integer(n))), behind))
                } else {
                    value_at(alloc, room, tokens)
                }
            }
            _ => value_at(alloc, room, tokens),
        },
    }
}

/// The text in quotes at a range of the text, quotes included.
pub fn quoted_name(tokens: Tokens, at: u32, len: u32) -> Name
    requires { IsTrue (is_quotable (bytes_at (at + 1) (len - 2) tokens.text.now)) }
    ensures { result ≡ bytes_at (at + 1) (len - 2) tokens.entry.text.now }
{
    let bytes = tokens.bytes_at(at as usize + 1, (len as usize).saturating_sub(2));
    Name::read(bytes).unwrap()
}

// An expression as an argument.
#[cycle(levels)]
#[inline(always)]
fn value_at<'a>(
    alloc: Global,
    room: u32,
    tokens: Tokens<'a>,
) -> Result<(Option<Argument>, Tokens<'a>), WrongToken<'a>>
    ensures { GivesRead item_of result (value_item (inside_of room) (symbols_left tokens.entry)) }
{
    if room == 0 {
        return Err(WrongToken { left: tokens });
    }
    let (e, rest) = level_at(alloc, room - 1, LOOSEST, tokens)?;
    Ok((argument(e), rest))
}
