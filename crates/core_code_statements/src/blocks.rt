// The code of blocks and of the statements that have them.

ghost use Rattle.std.specs.Prelude.{◌≡◌, ◌+◌, ◌<◌, ◌^◌, ◌++◌, OnOk, length};
ghost use Rattle.kern_syntax.specs.TreeOf.{block_of, statement_of};
ghost use Rattle.code_forms.specs.Sizes.{block_size, statement_size};
ghost use Rattle.code_forms.specs.StatementCode.{block_code, statement_code};
ghost use Rattle.code_ranges.specs.ReadyStatements.{HasSpace, BlockFits, StatementFits};
ghost use Rattle.core_code_names.specs.SettingOf.{setting_of};
ghost use Rattle.core_code_simple.specs.InsideOf.{inside_of};

use crate::branches::{is_followed, put_branch, put_branches, put_else};
use crate::handlers::{put_handlers, put_tried};
use crate::loops::{put_turns, put_while};
use crate::together::put_parallel;
use core_code_names::Setting;
use core_code_simple::lines::{put, with_recording};
use core_code_simple::{Inside, put_expression, put_simple};
use core_code_sizes::statement_size;
use core_isa::{CodeLine, Instr};
use kern_syntax::{Block, StmtKind};
use std::alloc::AllocError;

/// Puts the code of a block behind the lines that there are: its statements one after another, each with the jumps that it
/// needs, at the places where it stands. It leaves nothing on the operands.
#[cycle(statements)]
pub fn put_block(
    lines: &mut Vec<CodeLine>,
    setting: &Setting<'_>,
    inside: Inside,
    block: &Block,
) -> Result<(), AllocError>
    requires space { HasSpace inside.mark inside.free }
    requires fits { BlockFits (setting_of setting.now) inside.mark inside.free (block_of block.now) }
    requires places { length lines.old.items
        + block_size (setting_of setting.now) inside.mark.tries inside.enclosing.tries (block_of block.now) < 2 ^ 31 }
    ensures code { OnOk result (lines.new.items ≡ lines.old.items
        ++ block_code (setting_of setting.now) (inside_of inside) (length lines.old.items) (block_of block.now)) }
    ensures longer { OnOk result (length lines.new.items ≡ length lines.old.items
        + block_size (setting_of setting.now) inside.mark.tries inside.enclosing.tries (block_of block.now)) }
{
    for statement in block.statements.iter() {
        put_statement(lines, setting, inside, &statement.kind)?;
    }
    Ok(())
}

/// Puts the code of a statement behind the lines that there are.
#[cycle(statements)]
pub fn put_statement(
    lines: &mut Vec<CodeLine>,
    setting: &Setting<'_>,
    inside: Inside,
    statement: &StmtKind,
) -> Result<(), AllocError>
    requires space { HasSpace inside.mark inside.free }
    requires fits { StatementFits (setting_of setting.now) inside.mark inside.free (statement_of statement.now) }
    requires places { length lines.old.items
        + statement_size (setting_of setting.now) inside.mark.tries inside.enclosing.tries (statement_of statement.now) < 2 ^ 31 }
    ensures code { OnOk result (lines.new.items ≡ lines.old.items
        ++ statement_code (setting_of setting.now) (inside_of inside) (length lines.old.items) (statement_of statement.now)) }
    ensures longer { OnOk result (length lines.new.items ≡ length lines.old.items
        + statement_size (setting_of setting.now) inside.mark.tries inside.enclosing.tries (statement_of statement.now)) }
{
    match statement {
        StmtKind::If(condition, body, branches, last) => {
            let end = end_of(setting, inside, lines.len(), statement);
            let followed = is_followed(branches, last);
            put_branch(lines, setting, inside, body, condition, followed)?;
            put_branches(lines, setting, inside, branches, last, end)?;
            put_else(lines, setting, inside, last, end)
        }
        StmtKind::While(condition, body) => put_while(lines, setting, inside, body, condition),
        StmtKind::ForTo(name, to, body) => {
            put(lines, inside.mark, Instr::Const(0))?;
            put_turns(lines, setting, inside, body, name.bytes(), to)
        }
        StmtKind::ForFromTo(name, from, to, body) => {
            put_expression(lines, setting, inside.free, inside.mark, from)?;
            put_turns(lines, setting, inside, body, name.bytes(), to)
        }
        StmtKind::Parallel(body) => put_parallel(lines, setting, inside, body),
        StmtKind::Sequential(body) => put_block(lines, setting, inside, body),
        StmtKind::Record(name, body) => {
            let mark = with_recording(inside.mark);
            let name = setting.text_index(name.bytes());
            put(lines, inside.mark, Instr::Record(name))?;
            put_block(lines, setting, Inside { mark, ..inside }, body)?;
            put(lines, mark, Instr::Save)
        }
        StmtKind::Try(body, handlers) => {
            let end = end_of(setting, inside, lines.len(), statement);
            put_tried(lines, setting, inside, body, end)?;
            put_handlers(lines, setting, inside, handlers, end)
        }
        StmtKind::Pass
        | StmtKind::Break
        | StmtKind::Continue
        | StmtKind::Return(_)
        | StmtKind::Evaluate(_)
        | StmtKind::Assign(_, _)
        | StmtKind::Augmented(_, _, _)
        | StmtKind::ArrayRepeat(_, _, _)
        | StmtKind::ArrayList(_, _) => put_simple(lines, setting, inside, statement),
    }
}

// The place behind a statement that is put at a place.
fn end_of(setting: &Setting<'_>, inside: Inside, place: usize, statement: &StmtKind) -> u32
    requires tries { inside.mark.tries < 100 }
    requires places { place
        + statement_size (setting_of setting.now) inside.mark.tries inside.enclosing.tries (statement_of statement.now) < 2 ^ 31 }
    ensures { result ≡ place
        + statement_size (setting_of setting.now) inside.mark.tries inside.enclosing.tries (statement_of statement.now) }
{
    let tries = u32::from(inside.mark.tries);
    let kept = u32::from(inside.enclosing.tries);
    place as u32 + statement_size(setting, tries, kept, statement)
}
