// The text of statements and blocks.

ghost use Rattle.std.specs.Prelude.{◌≡◌, ◌++◌, suc, OnOk, codes};
ghost use Rattle.kern_syntax.specs.Print.{statement_text, block_text, otherwise_text, handlers_text, indent};
ghost use Rattle.kern_syntax.specs.TreeOf.{statement_of, block_of, branches_of, else_of, elif_of, handler_of, handlers_of};
ghost use Rattle.kern_syntax.specs.Tree.{no_else, no_handler};

use super::expressions::put_after;
use super::lines::{
    augment_sign, put_assignment, put_elements, put_for_from_to, put_for_to, put_line, put_record,
    put_repeated,
};
use super::put;
use crate::{Block, Elif, Handler, StmtKind};
use std::alloc::AllocError;

/// Appends what ends a header and follows it: a colon, and the block's lines one level deeper.
#[cycle(statements)]
pub fn put_body(text: &mut Vec<u8>, level: usize, body: &Block) -> Result<(), AllocError>
    ensures { OnOk result (text.new.items ≡ text.old.items ++ codes ":\n" ++ block_text (block_of body.now) (suc level)) }
{
    // so many spaces have no room
    let Some(deeper) = level.checked_add(1) else {
        return Err(AllocError);
    };
    put(text, b":\n")?;
    put_block(text, deeper, body)
}

#[cycle(statements)]
fn put_block(text: &mut Vec<u8>, level: usize, block: &Block) -> Result<(), AllocError>
    ensures { OnOk result (text.new.items ≡ text.old.items ++ block_text (block_of block.now) level) }
{
    for statement in block.statements.iter() {
        put_statement(text, level, &statement.kind)?;
    }
    Ok(())
}

#[cycle(statements)]
fn put_statement(text: &mut Vec<u8>, level: usize, statement: &StmtKind) -> Result<(), AllocError>
    ensures { OnOk result (text.new.items ≡ text.old.items ++ statement_text (statement_of statement.now) level) }
{
    put_indent(text, level)?;
    match statement {
        StmtKind::Pass => put(text, b"pass\n"),
        StmtKind::Break => put(text, b"break\n"),
        StmtKind::Continue => put(text, b"continue\n"),
        StmtKind::Return(None) => put(text, b"return\n"),
        StmtKind::Return(Some(value)) => put_line(text, b"return ", value),
        StmtKind::Evaluate(e) => put_line(text, b"", e),
        StmtKind::Assign(target, value) => put_assignment(text, target, b" = ", value),
        StmtKind::Augmented(target, operator, value) => put_assignment(
            text,
            target,
            augment_sign(*operator),
            value,
        ),
        StmtKind::ArrayRepeat(name, value, length) => put_repeated(text, name, value, *length),
        StmtKind::ArrayList(name, values) => put_elements(text, name, values),
        StmtKind::If(condition, body, branches, last) => {
            put_after(text, b"if ", condition)?;
            put_body(text, level, body)?;
            put_branches(text, level, branches)?;
            put_else(text, level, last)
        }
        StmtKind::While(condition, body) => {
            put_after(text, b"while ", condition)?;
            put_body(text, level, body)
        }
        StmtKind::ForTo(name, to, body) => {
            put_for_to(text, name, to)?;
            put_body(text, level, body)
        }
        StmtKind::ForFromTo(name, from, to, body) => {
            put_for_from_to(text, name, from, to)?;
            put_body(text, level, body)
        }
        StmtKind::Parallel(body) => {
            put(text, b"with parallel")?;
            put_body(text, level, body)
        }
        StmtKind::Sequential(body) => {
            put(text, b"with sequential")?;
            put_body(text, level, body)
        }
        StmtKind::Record(name, body) => {
            put_record(text, name)?;
            put_body(text, level, body)
        }
        StmtKind::Try(body, handlers) => {
            put(text, b"try")?;
            put_body(text, level, body)?;
            put_handlers(text, level, handlers)
        }
    }
}

ghost use Rattle.std.specs.Prelude.{None, option_map};

// Appends the `elif` branches of an `if`.
#[cycle(statements)]
fn put_branches(text: &mut Vec<u8>, level: usize, branches: &[Elif]) -> Result<(), AllocError>
    ensures { OnOk result (text.new.items ≡ text.old.items ++ otherwise_text (branches_of branches.now None) level) }
{
    for branch in branches.iter() {
        put_elif(text, level, branch)?;
    }
    Ok(())
}

#[cycle(statements)]
fn put_elif(text: &mut Vec<u8>, level: usize, branch: &Elif) -> Result<(), AllocError>
    ensures { OnOk result (text.new.items ≡ text.old.items ++ otherwise_text (elif_of branch.now no_else) level) }
{
    put_indent(text, level)?;
    put_after(text, b"elif ", &branch.condition)?;
    put_body(text, level, &branch.body)
}

#[cycle(statements)]
fn put_else(text: &mut Vec<u8>, level: usize, last: &Option<Block>) -> Result<(), AllocError>
    ensures { OnOk result (text.new.items ≡ text.old.items ++ otherwise_text (else_of (option_map block_of last.now)) level) }
{
    match last {
        None => Ok(()),
        Some(body) => {
            put_indent(text, level)?;
            put(text, b"else")?;
            put_body(text, level, body)
        }
    }
}

#[cycle(statements)]
fn put_handlers(text: &mut Vec<u8>, level: usize, handlers: &[Handler]) -> Result<(), AllocError>
    ensures { OnOk result (text.new.items ≡ text.old.items ++ handlers_text (handlers_of handlers.now) level) }
{
    for handler in handlers.iter() {
        put_handler(text, level, handler)?;
    }
    Ok(())
}

#[cycle(statements)]
fn put_handler(text: &mut Vec<u8>, level: usize, handler: &Handler) -> Result<(), AllocError>
    ensures { OnOk result (text.new.items ≡ text.old.items ++ handlers_text (handler_of handler.now no_handler) level) }
{
    put_indent(text, level)?;
    put(text, b"except ")?;
    put(text, handler.exception.bytes())?;
    put_body(text, level, &handler.body)
}

// Appends the spaces before a line.
fn put_indent(text: &mut Vec<u8>, level: usize) -> Result<(), AllocError>
    ensures { OnOk result (text.new.items ≡ text.old.items ++ indent level) }
{
    for _ in 0..level {
        put(text, b"    ")?;
    }
    Ok(())
}
