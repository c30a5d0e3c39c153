// Reading the statements that have branches, `if` and `try`, from behind their keywords.

ghost use Rattle.std.specs.Prelude.{◌≡◌, map, option_map};
ghost use Rattle.kern_grammar.specs.BlockPlans.{elif_plan, else_plan, except_plan, is_elif, is_else, is_except, line_plan};
ghost use Rattle.kern_grammar.specs.Plans.{many, maybe, run};
ghost use Rattle.kern_blocks.specs.BlockSteps.{elif_line, elif_parts, else_block, except_line, except_parts, if_plan, try_plan};
ghost use Rattle.kern_expressions.specs.TakenBy.{GivesTaken, begins_with, lexemes_left, perform};
ghost use Rattle.kern_statements.specs.LineSteps.{line_of_statement};
ghost use Rattle.kern_statements.specs.Several.{several};
ghost use Rattle.kern_syntax.specs.TreeOf.{block_of};

use crate::block::{colon_block_at, conditional_at};
use crate::parts::{elif_branch, else_branch, handler_branch, if_statement, try_statement};
use kern_expressions::{Tokens, WrongToken, name_at, pushed};
use kern_lexer::{Key, TokenKind};
use kern_syntax::{Block, Elif, Handler, Stmt};
use std::alloc::Global;

/// An `if` behind its keyword, with its branches.
#[cycle(blocks)]
pub fn if_at<'a>(
    alloc: Global,
    room: u32,
    line: u32,
    tokens: Tokens<'a>,
) -> Result<(Option<Stmt>, Tokens<'a>), WrongToken<'a>>
    ensures { GivesTaken line_of_statement result (perform (if_plan room line) (lexemes_left tokens.entry)) }
{
    let (conditional, rest) = conditional_at(alloc, room, tokens)?;
    let (branches, rest) = elifs_at(alloc, room, rest)?;
    let (last, rest) = else_at(alloc, room, rest)?;
    Ok((if_statement(line, conditional, branches, last), rest))
}

// Whether an `elif` branch follows.
fn begins_elif(tokens: Tokens) -> bool
    ensures { result ≡ begins_with is_elif (lexemes_left tokens.entry) }
{
    match tokens.list {
        [] => false,
        [first, ..] => matches!(first.kind, TokenKind::Key(Key::Elif)),
    }
}

// The `elif` branches of an `if`.
#[cycle(blocks)]
fn elifs_at<'a>(
    alloc: Global,
    room: u32,
    tokens: Tokens<'a>,
) -> Result<(Option<Vec<Elif>>, Tokens<'a>), WrongToken<'a>>
    ensures { GivesTaken (λ v. map elif_line v.items) result
        (many is_elif (run (elif_plan room (run (line_plan room)))) (lexemes_left tokens.entry)) }
{
    let mut branches = Some(Vec::new(alloc));
    let mut rest = tokens;
    'branches: while begins_elif(rest) {
        let (branch, behind) = elif_at(alloc, room, rest)?;
        branches = pushed(branches, branch);
        rest = behind;
    }
    Ok((branches, rest))
}

// An `elif` branch with its line.
#[cycle(blocks)]
fn elif_at<'a>(
    alloc: Global,
    room: u32,
    tokens: Tokens<'a>,
) -> Result<(Option<Elif>, Tokens<'a>), WrongToken<'a>>
    ensures { GivesTaken elif_line result
        (run (elif_plan room (run (line_plan room))) (lexemes_left tokens.entry)) }
{
    match tokens.list {
        [] => Err(WrongToken { left: tokens }),
        [first, ..] => match first.kind {
            TokenKind::Key(key) => match key {
                Key::Elif => elif_parts_at(alloc, room, first.line, tokens.tail()),
                _ => Err(WrongToken { left: tokens }),
            },
            _ => Err(WrongToken { left: tokens }),
        },
    }
}

// The condition and the block of an `elif` branch.
#[cycle(blocks)]
fn elif_parts_at<'a>(
    alloc: Global,
    room: u32,
    line: u32,
    tokens: Tokens<'a>,
) -> Result<(Option<Elif>, Tokens<'a>), WrongToken<'a>>
    ensures { GivesTaken elif_line result (perform (elif_parts room line) (lexemes_left tokens.entry)) }
{
    let (conditional, rest) = conditional_at(alloc, room, tokens)?;
    Ok((elif_branch(line, conditional), rest))
}

// The `else` branch of an `if`, or none. No `elif` follows here, since each was taken before.
#[cycle(blocks)]
fn else_at<'a>(
    alloc: Global,
    room: u32,
    tokens: Tokens<'a>,
) -> Result<(Option<Option<Block>>, Tokens<'a>), WrongToken<'a>>
    ensures { GivesTaken (option_map block_of) result
        (maybe is_else is_elif (run (else_plan room (run (line_plan room)))) (lexemes_left tokens.entry)) }
{
    match tokens.list {
        [] => Ok((Some(None), tokens)),
        [first, ..] => match first.kind {
            TokenKind::Key(key) => match key {
                Key::Else => else_block_at(alloc, room, tokens.tail()),
                Key::Elif => Err(WrongToken { left: tokens }),
                _ => Ok((Some(None), tokens)),
            },
            _ => Ok((Some(None), tokens)),
        },
    }
}

// The block of an `else` branch, behind the keyword.
#[cycle(blocks)]
fn else_block_at<'a>(
    alloc: Global,
    room: u32,
    tokens: Tokens<'a>,
) -> Result<(Option<Option<Block>>, Tokens<'a>), WrongToken<'a>>
    ensures { GivesTaken (option_map block_of) result (perform (else_block room) (lexemes_left tokens.entry)) }
{
    let (body, rest) = colon_block_at(alloc, room, tokens)?;
    Ok((else_branch(body), rest))
}

/// A `try` behind its keyword, with its branches, of which there is one at least.
#[cycle(blocks)]
pub fn try_at<'a>(
    alloc: Global,
    room: u32,
    line: u32,
    tokens: Tokens<'a>,
) -> Result<(Option<Stmt>, Tokens<'a>), WrongToken<'a>>
    ensures { GivesTaken line_of_statement result (perform (try_plan room line) (lexemes_left tokens.entry)) }
{
    let (body, rest) = colon_block_at(alloc, room, tokens)?;
    let (handlers, rest) = handlers_at(alloc, room, rest)?;
    Ok((try_statement(line, body, handlers), rest))
}

// Whether an `except` branch follows.
fn begins_except(tokens: Tokens) -> bool
    ensures { result ≡ begins_with is_except (lexemes_left tokens.entry) }
{
    match tokens.list {
        [] => false,
        [first, ..] => matches!(first.kind, TokenKind::Key(Key::Except)),
    }
}

// The `except` branches of a `try`, of which there is one at least.
#[cycle(blocks)]
fn handlers_at<'a>(
    alloc: Global,
    room: u32,
    tokens: Tokens<'a>,
) -> Result<(Option<Vec<Handler>>, Tokens<'a>), WrongToken<'a>>
    ensures { GivesTaken (λ v. map except_line v.items) result
        (several is_except (run (except_plan room (run (line_plan room)))) (lexemes_left tokens.entry)) }
{
    let mut handlers = Some(Vec::new(alloc));
    let mut rest = tokens;
    'handlers: loop {
        let (handler, behind) = handler_at(alloc, room, rest)?;
        handlers = pushed(handlers, handler);
        if !begins_except(behind) {
            return Ok((handlers, behind));
        }
        rest = behind;
    }
}

// An `except` branch with its line.
#[cycle(blocks)]
fn handler_at<'a>(
    alloc: Global,
    room: u32,
    tokens: Tokens<'a>,
) -> Result<(Option<Handler>, Tokens<'a>), WrongToken<'a>>
    ensures { GivesTaken except_line result
        (run (except_plan room (run (line_plan room))) (lexemes_left tokens.entry)) }
{
    match tokens.list {
        [] => Err(WrongToken { left: tokens }),
        [first, ..] => match first.kind {
            TokenKind::Key(key) => match key {
                Key::Except => handler_parts_at(alloc, room, first.line, tokens.tail()),
                _ => Err(WrongToken { left: tokens }),
            },
            _ => Err(WrongToken { left: tokens }),
        },
    }
}

// The name and the block of an `except` branch.
#[cycle(blocks)]
fn handler_parts_at<'a>(
    alloc: Global,
    room: u32,
    line: u32,
    tokens: Tokens<'a>,
) -> Result<(Option<Handler>, Tokens<'a>), WrongToken<'a>>
    ensures { GivesTaken except_line result (perform (except_parts room line) (lexemes_left tokens.entry)) }
{
    let (exception, rest) = name_at(alloc, tokens)?;
    let (body, rest) = colon_block_at(alloc, room, rest)?;
    Ok((handler_branch(line, exception, body), rest))
}
