// How many instructions the code of blocks has.

ghost use Rattle.std.specs.Prelude.{◌≡◌, ◌+◌, ◌<◌, ◌^◌};
ghost use Rattle.kern_syntax.specs.TreeOf.{block_of, statement_of};
ghost use Rattle.code_forms.specs.Sizes.{block_size, statement_size};
ghost use Rattle.core_code_names.specs.SettingOf.{setting_of};

use crate::conditions::{asked_size, is_turned};
use crate::expressions::expression_size;
use crate::pieces::{has_second, parallel_begin_size};
use crate::simple::simple_size;
use code_forms::TestKind;
use core_code_names::Setting;
use core_code_operations::{loop_size, test_size};
use kern_syntax::{Block, Elif, Expr, Handler, StmtKind};

/// How many instructions the code of a block has, under so many handlers, of which so many stood before the enclosing loop.
/// Counted in 32 bits, which also hold those handlers beside them.
#[cycle(sizes)]
pub fn block_size(setting: &Setting<'_>, tries: u32, kept: u32, block: &Block) -> u32
    requires { tries + block_size (setting_of setting.now) tries kept (block_of block.now) < 2 ^ 32 }
    ensures { result ≡ block_size (setting_of setting.now) tries kept (block_of block.now) }
{
    let mut size = 0;
    for statement in block.statements.iter() {
        size += statement_size(setting, tries, kept, &statement.kind);
    }
    size
}

/// How many instructions the code of a statement has, counted as those of a block.
#[cycle(sizes)]
pub fn statement_size(setting: &Setting<'_>, tries: u32, kept: u32, statement: &StmtKind) -> u32
    requires { tries + statement_size (setting_of setting.now) tries kept (statement_of statement.now) < 2 ^ 32 }
    ensures { result ≡ statement_size (setting_of setting.now) tries kept (statement_of statement.now) }
{
    match statement {
        StmtKind::If(condition, body, branches, last) => {
            branch_size(setting, tries, kept, body, condition)
                + branches_size(setting, tries, kept, branches)
                + else_size(setting, tries, kept, last)
        }
        StmtKind::While(condition, body) => {
            block_size(setting, tries, tries, body)
                + asked_size(setting, TestKind::LoopEnd, condition)
                + loop_size(is_turned(TestKind::LoopEnd, condition))
                + 2
        }
        StmtKind::ForTo(_, to, body) => {
            block_size(setting, tries, tries, body) + expression_size(setting, to).size + 15
        }
        StmtKind::ForFromTo(_, from, to, body) => {
            block_size(setting, tries, tries, body)
                + expression_size(setting, from).size
                + expression_size(setting, to).size
                + 14
        }
        StmtKind::Parallel(body) => {
            parallel_size(setting, tries, kept, body)
                + parallel_begin_size(has_second(&body.statements))
        }
        StmtKind::Sequential(body) => block_size(setting, tries, kept, body),
        StmtKind::Record(_, body) => block_size(setting, tries, kept, body) + 2,
        StmtKind::Try(body, handlers) => {
            block_size(setting, tries + 1, kept, body)
                + handlers_size(setting, tries, kept, handlers)
                + 3
        }
        StmtKind::Pass
        | StmtKind::Break
        | StmtKind::Continue
        | StmtKind::Return(_)
        | StmtKind::Evaluate(_)
        | StmtKind::Assign(_, _)
        | StmtKind::Augmented(_, _, _)
        | StmtKind::ArrayRepeat(_, _, _)
        | StmtKind::ArrayList(_, _) => simple_size(setting, tries, kept, statement),
    }
}

ghost use Rattle.code_forms.specs.Sizes.{parallel_size};

// The statements of a parallel block.
#[cycle(sizes)]
fn parallel_size(setting: &Setting<'_>, tries: u32, kept: u32, block: &Block) -> u32
    requires { tries + parallel_size (setting_of setting.now) tries kept (block_of block.now) < 2 ^ 32 }
    ensures { result ≡ parallel_size (setting_of setting.now) tries kept (block_of block.now) }
{
    let mut size = 0;
    for (number, statement) in block.statements.iter().enumerate() {
        if number > 0 {
            size += 6;
        }
        size += statement_size(setting, tries, kept, &statement.kind);
    }
    if block.statements.is_empty() {
        size
    } else {
        size + 4
    }
}

ghost use Rattle.kern_syntax.specs.TreeOf.{expression_of};
ghost use Rattle.core_code_sizes.specs.Parts.{branch_size};

/// How many instructions the code of a branch has, its condition and its body, without the jump past what follows.
#[cycle(sizes)]
pub fn branch_size(
    setting: &Setting<'_>,
    tries: u32,
    kept: u32,
    body: &Block,
    condition: &Expr,
) -> u32
    requires { tries + branch_size (setting_of setting.now) tries kept (expression_of condition.now) (block_of body.now) < 2 ^ 32 }
    ensures { result ≡ branch_size (setting_of setting.now) tries kept (expression_of condition.now) (block_of body.now) }
{
    asked_size(setting, TestKind::Branch, condition)
        + test_size(is_turned(TestKind::Branch, condition))
        + block_size(setting, tries, kept, body)
}

ghost use Rattle.std.specs.Prelude.{None, option_map};
ghost use Rattle.kern_syntax.specs.TreeOf.{branches_of, else_of};
ghost use Rattle.core_code_sizes.specs.Parts.{followed_size};

// The `elif` branches of an `if`, each with the jump before it past the rest.
#[cycle(sizes)]
fn branches_size(setting: &Setting<'_>, tries: u32, kept: u32, branches: &[Elif]) -> u32
    requires { tries + followed_size (setting_of setting.now) tries kept (branches_of branches.now None) < 2 ^ 32 }
    ensures { result ≡ followed_size (setting_of setting.now) tries kept (branches_of branches.now None) }
{
    let mut size = 0;
    for branch in branches.iter() {
        size += branch_size(setting, tries, kept, &branch.body, &branch.condition) + 1;
    }
    size
}

// The `else` of an `if`, if it has one, with the jump before it.
#[cycle(sizes)]
fn else_size(setting: &Setting<'_>, tries: u32, kept: u32, last: &Option<Block>) -> u32
    requires { tries + followed_size (setting_of setting.now) tries kept (else_of (option_map block_of last.now)) < 2 ^ 32 }
    ensures { result ≡ followed_size (setting_of setting.now) tries kept (else_of (option_map block_of last.now)) }
{
    match last {
        Some(body) => block_size(setting, tries, kept, body) + 1,
        None => 0,
    }
}

ghost use Rattle.code_forms.specs.Sizes.{handlers_size};
ghost use Rattle.kern_syntax.specs.TreeOf.{handlers_of};

// The handlers of a `try`, and what raises the exception again behind them.
#[cycle(sizes)]
fn handlers_size(setting: &Setting<'_>, tries: u32, kept: u32, handlers: &[Handler]) -> u32
    requires { tries + handlers_size (setting_of setting.now) tries kept (handlers_of handlers.now) < 2 ^ 32 }
    ensures { result ≡ handlers_size (setting_of setting.now) tries kept (handlers_of handlers.now) }
{
    let mut size = 0;
    for handler in handlers.iter() {
        size += block_size(setting, tries, kept, &handler.body) + 6;
    }
    size + 1
}
