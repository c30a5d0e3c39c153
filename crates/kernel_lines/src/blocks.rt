// The lines of blocks and statements.

ghost use Rattle.std.specs.Prelude.{◌≡◌, ◌+◌, ◌<◌, ◌^◌, ◌++◌, OnOk};
ghost use Rattle.kern_syntax.specs.TreeOf.{block_of, statement_of};
ghost use Rattle.code_forms.specs.Sizes.{block_size, statement_size};
ghost use Rattle.core_code_names.specs.SettingOf.{setting_of};
ghost use Rattle.kernel_lines.specs.KernelLines.{block_lines, statement_lines};

use crate::sizes::{exit_size, parallel_begin_size};
use crate::stretches::put_line;
use code_forms::TestKind;
use core_code_names::Setting;
use core_code_operations::test_size;
use core_code_sizes::{asked_size, expression_size, is_turned, loop_size, statement_size};
use kern_syntax::{Block, Elif, Expr, Handler, StmtKind};
use std::alloc::AllocError;

/// Puts the lines of a block behind those that there are, a line for each instruction of its code, under so many handlers, of
/// which so many stood before the enclosing loop.
#[cycle(lines)]
pub fn put_block(
    lines: &mut Vec<u32>,
    setting: &Setting<'_>,
    tries: u32,
    kept: u32,
    block: &Block,
) -> Result<(), AllocError>
    requires { tries + block_size (setting_of setting.now) tries kept (block_of block.now) < 2 ^ 32 }
    ensures { OnOk result (lines.new.items ≡ lines.old.items
        ++ block_lines (setting_of setting.now) tries kept (block_of block.now)) }
{
    for statement in block.statements.iter() {
        put_statement(lines, setting, tries, kept, statement.line, &statement.kind)?;
    }
    Ok(())
}

// Puts the lines of a statement that stands at a line.
#[cycle(lines)]
fn put_statement(
    lines: &mut Vec<u32>,
    setting: &Setting<'_>,
    tries: u32,
    kept: u32,
    line: u32,
    statement: &StmtKind,
) -> Result<(), AllocError>
    requires { tries + statement_size (setting_of setting.now) tries kept (statement_of statement.now) < 2 ^ 32 }
    ensures { OnOk result (lines.new.items ≡ lines.old.items
        ++ statement_lines (setting_of setting.now) tries kept line (statement_of statement.now)) }
{
    match statement {
        StmtKind::If(condition, body, branches, last) => {
            put_branch(lines, setting, tries, kept, line, body, condition)?;
            put_line(lines, line, exit_size(branches, last))?;
            put_branches(lines, setting, tries, kept, branches, last)?;
            put_else(lines, setting, tries, kept, last)
        }
        StmtKind::While(condition, body) => put_while(lines, setting, tries, line, body, condition),
        StmtKind::ForTo(_, to, body) => {
            let bounds = 1 + expression_size(setting, to).size;
            put_turns(lines, setting, tries, line, bounds, body)
        }
        StmtKind::ForFromTo(_, from, to, body) => {
            let bounds = expression_size(setting, from).size + expression_size(setting, to).size;
            put_turns(lines, setting, tries, line, bounds, body)
        }
        StmtKind::Parallel(body) => put_parallel(lines, setting, tries, kept, line, body),
        StmtKind::Sequential(body) => put_block(lines, setting, tries, kept, body),
        StmtKind::Record(_, body) => put_recorded(lines, setting, tries, kept, line, body),
        StmtKind::Try(body, handlers) => {
            put_tried(lines, setting, tries, kept, line, body)?;
            put_handlers(lines, setting, tries, kept, handlers)
        }
        StmtKind::Pass
        | StmtKind::Break
        | StmtKind::Continue
        | StmtKind::Return(_)
        | StmtKind::Evaluate(_)
        | StmtKind::Assign(_, _)
        | StmtKind::Augmented(_, _, _)
        | StmtKind::ArrayRepeat(_, _, _)
        | StmtKind::ArrayList(_, _) => {
            put_line(lines, line, statement_size(setting, tries, kept, statement))
        }
    }
}

ghost use Rattle.kern_syntax.specs.TreeOf.{expression_of};
ghost use Rattle.core_code_sizes.specs.Parts.{branch_size};
ghost use Rattle.kernel_lines.specs.Parts.{branch_lines};

// A branch, without the jump past what follows it: its condition has its line.
#[cycle(lines)]
fn put_branch(
    lines: &mut Vec<u32>,
    setting: &Setting<'_>,
    tries: u32,
    kept: u32,
    line: u32,
    body: &Block,
    condition: &Expr,
) -> Result<(), AllocError>
    requires { tries + branch_size (setting_of setting.now) tries kept (expression_of condition.now) (block_of body.now) < 2 ^ 32 }
    ensures { OnOk result (lines.new.items ≡ lines.old.items
        ++ branch_lines (setting_of setting.now) tries kept line (expression_of condition.now) (block_of body.now)) }
{
    let asked = asked_size(setting, TestKind::Branch, condition);
    let test = test_size(is_turned(TestKind::Branch, condition));
    put_line(lines, line, asked + test)?;
    put_block(lines, setting, tries, kept, body)
}

ghost use Rattle.std.specs.Prelude.{option_map};
ghost use Rattle.kern_syntax.specs.TreeOf.{branches_of, else_of};
ghost use Rattle.code_forms.specs.Sizes.{otherwise_size};
ghost use Rattle.kernel_lines.specs.KernelLines.{otherwise_lines};

// The `elif` branches of an `if`, each with the jump past all that follows: with the lines of the `else`, those of all of them.
#[cycle(lines)]
fn put_branches(
    lines: &mut Vec<u32>,
    setting: &Setting<'_>,
    tries: u32,
    kept: u32,
    branches: &[Elif],
    last: &Option<Block>,
) -> Result<(), AllocError>
    requires { tries + otherwise_size (setting_of setting.now) tries kept (branches_of branches.now last.now) < 2 ^ 32 }
    ensures { OnOk result (lines.new.items
        ++ otherwise_lines (setting_of setting.now) tries kept (else_of (option_map block_of last.now))
        ≡ lines.old.items ++ otherwise_lines (setting_of setting.now) tries kept (branches_of branches.now last.now)) }
{
    for (index, branch) in branches.iter().enumerate() {
        let line = branch.line;
        put_branch(
            lines,
            setting,
            tries,
            kept,
            line,
            &branch.body,
            &branch.condition,
        )?;
        put_line(lines, line, exit_size(&branches[index + 1..], last))?;
    }
    Ok(())
}

// The `else` of an `if`, if it has one.
#[cycle(lines)]
fn put_else(
    lines: &mut Vec<u32>,
    setting: &Setting<'_>,
    tries: u32,
    kept: u32,
    last: &Option<Block>,
) -> Result<(), AllocError>
    requires { tries + otherwise_size (setting_of setting.now) tries kept (else_of (option_map block_of last.now)) < 2 ^ 32 }
    ensures { OnOk result (lines.new.items ≡ lines.old.items
        ++ otherwise_lines (setting_of setting.now) tries kept (else_of (option_map block_of last.now))) }
{
    match last {
        Some(body) => put_block(lines, setting, tries, kept, body),
        None => Ok(()),
    }
}

ghost use Rattle.kern_syntax.specs.Tree.{while_do};

// A `while`: what begins a turn, and the condition behind the body, have its line.
#[cycle(lines)]
fn put_while(
    lines: &mut Vec<u32>,
    setting: &Setting<'_>,
    tries: u32,
    line: u32,
    body: &Block,
    condition: &Expr,
) -> Result<(), AllocError>
    requires { tries + statement_size (setting_of setting.now) tries tries (while_do (expression_of condition.now) (block_of body.now)) < 2 ^ 32 }
    ensures { OnOk result (lines.new.items ≡ lines.old.items
        ++ statement_lines (setting_of setting.now) tries tries line (while_do (expression_of condition.now) (block_of body.now))) }
{
    put_line(lines, line, 2)?;
    put_block(lines, setting, tries, tries, body)?;
    let asked = asked_size(setting, TestKind::LoopEnd, condition);
    let test = loop_size(is_turned(TestKind::LoopEnd, condition));
    put_line(lines, line, asked + test)
}

ghost use Rattle.kernel_lines.specs.Parts.{turns_lines};

// A `for` whose bounds take so many instructions: they, what begins a turn and what ends it have its line.
#[cycle(lines)]
fn put_turns(
    lines: &mut Vec<u32>,
    setting: &Setting<'_>,
    tries: u32,
    line: u32,
    bounds: u32,
    body: &Block,
) -> Result<(), AllocError>
    requires { tries + bounds + 14 + block_size (setting_of setting.now) tries tries (block_of body.now) < 2 ^ 32 }
    ensures { OnOk result (lines.new.items ≡ lines.old.items
        ++ turns_lines (setting_of setting.now) tries line bounds (block_of body.now)) }
{
    put_line(lines, line, bounds + 10)?;
    put_block(lines, setting, tries, tries, body)?;
    put_line(lines, line, 4)
}

ghost use Rattle.kern_syntax.specs.Tree.{parallel};

// A parallel block, whose beginning has the line of its header.
#[cycle(lines)]
fn put_parallel(
    lines: &mut Vec<u32>,
    setting: &Setting<'_>,
    tries: u32,
    kept: u32,
    line: u32,
    body: &Block,
) -> Result<(), AllocError>
    requires { tries + statement_size (setting_of setting.now) tries kept (parallel (block_of body.now)) < 2 ^ 32 }
    ensures { OnOk result (lines.new.items ≡ lines.old.items
        ++ statement_lines (setting_of setting.now) tries kept line (parallel (block_of body.now))) }
{
    put_line(lines, line, parallel_begin_size(body))?;
    put_together(lines, setting, tries, kept, line, body)
}

ghost use Rattle.code_forms.specs.Sizes.{parallel_size};
ghost use Rattle.kernel_lines.specs.KernelLines.{parallel_lines};

// The statements of a parallel block: what stands between them, and what joins them behind the last one, has the line of the
// block's header.
#[cycle(lines)]
fn put_together(
    lines: &mut Vec<u32>,
    setting: &Setting<'_>,
    tries: u32,
    kept: u32,
    header: u32,
    body: &Block,
) -> Result<(), AllocError>
    requires { tries + parallel_size (setting_of setting.now) tries kept (block_of body.now) < 2 ^ 32 }
    ensures { OnOk result (lines.new.items ≡ lines.old.items
        ++ parallel_lines (setting_of setting.now) tries kept header (block_of body.now)) }
{
    for (number, statement) in body.statements.iter().enumerate() {
        if number > 0 {
            put_line(lines, header, 6)?;
        }
        put_statement(lines, setting, tries, kept, statement.line, &statement.kind)?;
    }
    if body.statements.is_empty() {
        return Ok(());
    }
    put_line(lines, header, 4)
}

ghost use Rattle.kernel_lines.specs.Parts.{recorded_lines};

// A recording, whose beginning and end have the line of its header.
#[cycle(lines)]
fn put_recorded(
    lines: &mut Vec<u32>,
    setting: &Setting<'_>,
    tries: u32,
    kept: u32,
    line: u32,
    body: &Block,
) -> Result<(), AllocError>
    requires { tries + block_size (setting_of setting.now) tries kept (block_of body.now) < 2 ^ 32 }
    ensures { OnOk result (lines.new.items ≡ lines.old.items
        ++ recorded_lines (setting_of setting.now) tries kept line (block_of body.now)) }
{
    put_line(lines, line, 1)?;
    put_block(lines, setting, tries, kept, body)?;
    put_line(lines, line, 1)
}

ghost use Rattle.kernel_lines.specs.Parts.{tried_lines};

// The body of a `try`: the handler is added, removed and gone past on the line of the `try`.
#[cycle(lines)]
fn put_tried(
    lines: &mut Vec<u32>,
    setting: &Setting<'_>,
    tries: u32,
    kept: u32,
    line: u32,
    body: &Block,
) -> Result<(), AllocError>
    requires { tries + 1 + block_size (setting_of setting.now) (tries + 1) kept (block_of body.now) < 2 ^ 32 }
    ensures { OnOk result (lines.new.items ≡ lines.old.items
        ++ tried_lines (setting_of setting.now) tries kept line (block_of body.now)) }
{
    put_line(lines, line, 1)?;
    put_block(lines, setting, tries + 1, kept, body)?;
    put_line(lines, line, 2)
}

ghost use Rattle.kern_syntax.specs.TreeOf.{handlers_of};
ghost use Rattle.code_forms.specs.Sizes.{handlers_size};
ghost use Rattle.kernel_lines.specs.KernelLines.{handlers_lines};

// What passes an exception on belongs to no line.
const NO_LINE: u32 = 0;

// The handlers of a `try`, and what raises the exception again behind them.
#[cycle(lines)]
fn put_handlers(
    lines: &mut Vec<u32>,
    setting: &Setting<'_>,
    tries: u32,
    kept: u32,
    handlers: &[Handler],
) -> Result<(), AllocError>
    requires { tries + handlers_size (setting_of setting.now) tries kept (handlers_of handlers.now) < 2 ^ 32 }
    ensures { OnOk result (lines.new.items ≡ lines.old.items
        ++ handlers_lines (setting_of setting.now) tries kept (handlers_of handlers.now)) }
{
    for handler in handlers.iter() {
        put_line(lines, NO_LINE, 4)?;
        put_line(lines, handler.line, 1)?;
        put_block(lines, setting, tries, kept, &handler.body)?;
        put_line(lines, handler.line, 1)?;
    }
    put_line(lines, NO_LINE, 1)
}
