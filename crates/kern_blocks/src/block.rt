// Reading blocks, and the statements that have blocks.
//
// The room of a statement is the number of blocks in one another that it may still hold.

ghost use Rattle.std.specs.Prelude.{◌≡◌, List, map};
ghost use Rattle.kern_grammar.specs.BlockPlans.{block_plan, is_line, line_plan, statement_plan};
ghost use Rattle.kern_grammar.specs.Plans.{peek, run};
ghost use Rattle.kern_grammar.specs.SimplePlans.{Line, simple_plan};
ghost use Rattle.kern_grammar.specs.Views.{opening};
ghost use Rattle.kern_blocks.specs.BlockSteps.{as_block, colon_block, conditional, conditional_of, for_plan, indented_plan, while_plan, with_block_plan, with_rest};
ghost use Rattle.kern_expressions.specs.Kept.{KeptAs};
ghost use Rattle.kern_expressions.specs.TakenBy.{GivesTaken, begins_with, lexemes_left, perform};
ghost use Rattle.kern_statements.specs.LineSteps.{line_of_statement};
ghost use Rattle.kern_statements.specs.Several.{one_behind, several};
ghost use Rattle.kern_syntax.specs.TreeOf.{block_of};

use crate::branches::{if_at, try_at};
use crate::parts::{
    Conditional, block_with, for_statement, under_condition, while_statement, with_statement,
};
use kern_expressions::{
    Tokens, WrongToken, colon_at, dedent_at, expression_at, indent_at, name_at, pushed,
};
use kern_lexer::{Key, TokenKind};
use kern_statements::{WithItem, bounds_at, expression_behind, simple_at, with_item_at};
use kern_syntax::{Block, Stmt};
use std::alloc::Global;

/// A block: one statement on the line of its header, or indented lines. It is missing where memory
/// was refused.
#[cycle(blocks)]
pub fn block_at<'a>(
    alloc: Global,
    room: u32,
    tokens: Tokens<'a>,
) -> Result<(Option<Block>, Tokens<'a>), WrongToken<'a>>
    ensures { GivesTaken block_of result
        (run (block_plan room (run (line_plan room))) (lexemes_left tokens.entry)) }
{
    match tokens.list {
        [] => Err(WrongToken { left: tokens }),
        [first, ..] => match first.kind {
            TokenKind::Newline => indented_at(alloc, room, tokens.tail()),
            _ => one_line_at(alloc, first.line, tokens),
        },
    }
}

// A block of one statement on the line of its header.
fn one_line_at<'a>(
    alloc: Global,
    line: u32,
    tokens: Tokens<'a>,
) -> Result<(Option<Block>, Tokens<'a>), WrongToken<'a>>
    ensures { GivesTaken block_of result
        (perform (peek (λ t. simple_plan (as_block line) (opening t.symbol))) (lexemes_left tokens.entry)) }
{
    let (statement, rest) = simple_at(alloc, line, tokens)?;
    let statements = pushed(Some(Vec::new(alloc)), statement);
    Ok((block_with(statements), rest))
}

// Indented lines, from the Indent to the Dedent.
#[cycle(blocks)]
fn indented_at<'a>(
    alloc: Global,
    room: u32,
    tokens: Tokens<'a>,
) -> Result<(Option<Block>, Tokens<'a>), WrongToken<'a>>
    ensures { GivesTaken block_of result (perform (indented_plan room) (lexemes_left tokens.entry)) }
{
    let lines = indent_at(tokens)?;
    let (statements, end) = statements_at(alloc, room, lines)?;
    let rest = dedent_at(end)?;
    Ok((block_with(statements), rest))
}

// Whether a statement follows in a block, which a Dedent ends.
fn begins_line(tokens: Tokens) -> bool
    ensures { result ≡ begins_with is_line (lexemes_left tokens.entry) }
{
    match tokens.list {
        [] => false,
        [first, ..] => !matches!(first.kind, TokenKind::Dedent),
    }
}

// The statements of a block, of which there is one at least.
#[cycle(blocks)]
fn statements_at<'a>(
    alloc: Global,
    room: u32,
    tokens: Tokens<'a>,
) -> Result<(Option<Vec<Stmt>>, Tokens<'a>), WrongToken<'a>>
    ensures { GivesTaken (λ v. map line_of_statement v.items) result
        (several is_line (run (line_plan room)) (lexemes_left tokens.entry)) }
{
    let mut statements = Some(Vec::new(alloc));
    let mut rest = tokens;
    'lines: loop {
        let (more, behind) = statement_behind(alloc, room, statements, rest)?;
        statements = more;
        if !begins_line(behind) {
            return Ok((statements, behind));
        }
        rest = behind;
    }
}

// One more statement behind others.
#[cycle(blocks)]
#[inline(always)]
fn statement_behind<'a>(
    alloc: Global,
    room: u32,
    others: Option<Vec<Stmt>>,
    tokens: Tokens<'a>,
) -> Result<(Option<Vec<Stmt>>, Tokens<'a>), WrongToken<'a>>
    ensures { (xs : List Line) → KeptAs (λ v. map line_of_statement v.items) others xs →
        GivesTaken (λ v. map line_of_statement v.items) result
        (one_behind xs (run (line_plan room) (lexemes_left tokens.entry))) }
{
    match tokens.list {
        [] => Err(WrongToken { left: tokens }),
        [first, ..] => match first.kind {
            TokenKind::Name => expression_behind(alloc, first.line, others, tokens),
            _ => other_behind(alloc, room, others, tokens),
        },
    }
}

// The same, where it doesn't begin with a name.
#[cycle(blocks)]
#[inline(always)]
fn other_behind<'a>(
    alloc: Global,
    room: u32,
    others: Option<Vec<Stmt>>,
    tokens: Tokens<'a>,
) -> Result<(Option<Vec<Stmt>>, Tokens<'a>), WrongToken<'a>>
    ensures { (xs : List Line) → KeptAs (λ v. map line_of_statement v.items) others xs →
        GivesTaken (λ v. map line_of_statement v.items) result
        (one_behind xs (run (line_plan room) (lexemes_left tokens.entry))) }
{
    match statement_at(alloc, room, tokens) {
        Err(wrong) => Err(wrong),
        Ok((statement, rest)) => Ok((pushed(others, statement), rest)),
    }
}

// A statement with its line.
#[cycle(blocks)]
fn statement_at<'a>(
    alloc: Global,
    room: u32,
    tokens: Tokens<'a>,
) -> Result<(Option<Stmt>, Tokens<'a>), WrongToken<'a>>
    ensures { GivesTaken line_of_statement result (run (line_plan room) (lexemes_left tokens.entry)) }
{
    match tokens.list {
        [] => Err(WrongToken { left: tokens }),
        [first, ..] => {
            if room == 0 {
                simple_at(alloc, first.line, tokens)
            } else {
                any_statement_at(alloc, room - 1, first.line, tokens)
            }
        }
    }
}

// A statement, whose blocks have so much room.
#[cycle(blocks)]
#[inline(always)]
fn any_statement_at<'a>(
    alloc: Global,
    room: u32,
    line: u32,
    tokens: Tokens<'a>,
) -> Result<(Option<Stmt>, Tokens<'a>), WrongToken<'a>>
    ensures { GivesTaken line_of_statement result
        (perform (peek (λ t. statement_plan room (run (line_plan room)) line (opening t.symbol))) (lexemes_left tokens.entry)) }
{
    match tokens.list {
        [] => Err(WrongToken { left: tokens }),
        [first, ..] => match first.kind {
            TokenKind::Key(key) => match key {
                Key::If => if_at(alloc, room, line, tokens.tail()),
                Key::While => while_at(alloc, room, line, tokens.tail()),
                Key::For => for_at(alloc, room, line, tokens.tail()),
                Key::With => with_at(alloc, room, line, tokens.tail()),
                Key::Try => try_at(alloc, room, line, tokens.tail()),
                _ => simple_at(alloc, line, tokens),
            },
            _ => simple_at(alloc, line, tokens),
        },
    }
}

// A `while` behind its keyword.
#[cycle(blocks)]
fn while_at<'a>(
    alloc: Global,
    room: u32,
    line: u32,
    tokens: Tokens<'a>,
) -> Result<(Option<Stmt>, Tokens<'a>), WrongToken<'a>>
    ensures { GivesTaken line_of_statement result (perform (while_plan room line) (lexemes_left tokens.entry)) }
{
    let (conditional, rest) = conditional_at(alloc, room, tokens)?;
    Ok((while_statement(line, conditional), rest))
}

/// A condition, a colon and a block.
#[cycle(blocks)]
pub fn conditional_at<'a>(
    alloc: Global,
    room: u32,
    tokens: Tokens<'a>,
) -> Result<(Option<Conditional>, Tokens<'a>), WrongToken<'a>>
    ensures { GivesTaken conditional_of result (perform (conditional room) (lexemes_left tokens.entry)) }
{
    let (condition, rest) = expression_at(alloc, 16, tokens)?;
    let (body, rest) = colon_block_at(alloc, room, rest)?;
    Ok((under_condition(condition, body), rest))
}

/// A colon and a block.
#[cycle(blocks)]
pub fn colon_block_at<'a>(
    alloc: Global,
    room: u32,
    tokens: Tokens<'a>,
) -> Result<(Option<Block>, Tokens<'a>), WrongToken<'a>>
    ensures { GivesTaken block_of result (perform (colon_block room) (lexemes_left tokens.entry)) }
{
    let rest = colon_at(tokens)?;
    block_at(alloc, room, rest)
}

// A `for` behind its keyword.
#[cycle(blocks)]
fn for_at<'a>(
    alloc: Global,
    room: u32,
    line: u32,
    tokens: Tokens<'a>,
) -> Result<(Option<Stmt>, Tokens<'a>), WrongToken<'a>>
    ensures { GivesTaken line_of_statement result (perform (for_plan room line) (lexemes_left tokens.entry)) }
{
    let (name, rest) = name_at(alloc, tokens)?;
    let (bounds, rest) = bounds_at(alloc, rest)?;
    let (body, rest) = colon_block_at(alloc, room, rest)?;
    Ok((for_statement(line, name, bounds, body), rest))
}

// A `with` behind its keyword.
#[cycle(blocks)]
fn with_at<'a>(
    alloc: Global,
    room: u32,
    line: u32,
    tokens: Tokens<'a>,
) -> Result<(Option<Stmt>, Tokens<'a>), WrongToken<'a>>
    ensures { GivesTaken line_of_statement result (perform (with_block_plan room line) (lexemes_left tokens.entry)) }
{
    match with_item_at(tokens) {
        Err(wrong) => Err(wrong),
        Ok((item, rest)) => with_body_at(alloc, room, line, item, rest),
    }
}

// The block of a `with` behind its item.
#[cycle(blocks)]
fn with_body_at<'a>(
    alloc: Global,
    room: u32,
    line: u32,
    item: WithItem,
    tokens: Tokens<'a>,
) -> Result<(Option<Stmt>, Tokens<'a>), WrongToken<'a>>
    ensures { GivesTaken line_of_statement result (perform (with_rest room line item) (lexemes_left tokens.entry)) }
{
    let (body, rest) = colon_block_at(alloc, room, tokens)?;
    Ok((with_statement(line, item, body), rest))
}
