// The code of `if`, branch behind branch.

ghost use Rattle.std.specs.Prelude.{◌≡◌, ◌+◌, ◌<◌, ◌^◌, ◌++◌, OnOk, length};
ghost use Rattle.kern_syntax.specs.TreeOf.{block_of, branches_of, expression_of};
ghost use Rattle.code_ranges.specs.Ready.{ExpressionFits};
ghost use Rattle.code_ranges.specs.ReadyStatements.{HasSpace, BlockFits};
ghost use Rattle.core_code_names.specs.SettingOf.{setting_of};
ghost use Rattle.core_code_sizes.specs.Parts.{branch_size};
ghost use Rattle.core_code_simple.specs.InsideOf.{inside_of};
ghost use Rattle.core_code_statements.specs.Parts.{branch_code, is_followed};

use crate::blocks::put_block;
use code_forms::TestKind;
use core_code_names::Setting;
use core_code_simple::lines::{put, raised};
use core_code_simple::{Inside, put_asked, put_test};
use core_code_sizes::{branch_size, is_turned};
use core_isa::{CodeLine, Instr};
use kern_syntax::{Block, Elif, Expr};
use std::alloc::AllocError;

/// Whether branches or an `else` follow.
pub fn is_followed(branches: &[Elif], last: &Option<Block>) -> bool
    ensures { result ≡ is_followed (branches_of branches.now last.now) }
{
    !branches.is_empty() || last.is_some()
}

/// A branch, up to the jump past what follows it.
#[cycle(statements)]
pub fn put_branch(
    lines: &mut Vec<CodeLine>,
    setting: &Setting<'_>,
    inside: Inside,
    body: &Block,
    condition: &Expr,
    followed: bool,
) -> Result<(), AllocError>
    requires space { HasSpace inside.mark inside.free }
    requires condition { ExpressionFits inside.mark (expression_of condition.now) }
    requires fits { BlockFits (setting_of setting.now) inside.mark inside.free (block_of body.now) }
    requires places { length lines.old.items
        + branch_size (setting_of setting.now) inside.mark.tries inside.enclosing.tries (expression_of condition.now) (block_of body.now) < 2 ^ 31 }
    ensures code { OnOk result (lines.new.items ≡ lines.old.items
        ++ branch_code (setting_of setting.now) (inside_of inside) (length lines.old.items) (expression_of condition.now) (block_of body.now) followed) }
    ensures longer { OnOk result (length lines.new.items ≡ length lines.old.items
        + branch_size (setting_of setting.now) inside.mark.tries inside.enclosing.tries (expression_of condition.now) (block_of body.now)) }
{
    let tries = u32::from(inside.mark.tries);
    let kept = u32::from(inside.enclosing.tries);
    let size = branch_size(setting, tries, kept, body, condition);
    let other = lines.len() as u32 + size + u32::from(followed);
    put_asked(
        lines,
        setting,
        inside.free,
        inside.mark,
        TestKind::Branch,
        condition,
    )?;
    let turned = is_turned(TestKind::Branch, condition);
    put_test(lines, raised(inside.mark, 1), turned, other)?;
    put_block(lines, setting, inside, body)
}

ghost use Rattle.std.specs.Prelude.{option_map};
ghost use Rattle.kern_syntax.specs.TreeOf.{else_of};
ghost use Rattle.code_ranges.specs.ReadyStatements.{OtherwiseFits};
ghost use Rattle.core_code_sizes.specs.Parts.{followed_size};
ghost use Rattle.core_code_statements.specs.Parts.{followed_code};

/// The `elif` branches of an `if`, before each the jump past all that follows.
#[cycle(statements)]
pub fn put_branches(
    lines: &mut Vec<CodeLine>,
    setting: &Setting<'_>,
    inside: Inside,
    branches: &[Elif],
    last: &Option<Block>,
    end: u32,
) -> Result<(), AllocError>
    requires space { HasSpace inside.mark inside.free }
    requires fits { OtherwiseFits (setting_of setting.now) inside.mark inside.free (branches_of branches.now last.now) }
    requires end { end ≡ length lines.old.items
        + followed_size (setting_of setting.now) inside.mark.tries inside.enclosing.tries (branches_of branches.now last.now) }
    requires places { end < 2 ^ 31 }
    ensures code { OnOk result (lines.new.items
        ++ followed_code (setting_of setting.now) (inside_of inside) (length lines.new.items) end (else_of (option_map block_of last.now))
        ≡ lines.old.items
        ++ followed_code (setting_of setting.now) (inside_of inside) (length lines.old.items) end (branches_of branches.now last.now)) }
    ensures end { OnOk result (end ≡ length lines.new.items
        + followed_size (setting_of setting.now) inside.mark.tries inside.enclosing.tries (else_of (option_map block_of last.now))) }
{
    for (index, branch) in branches.iter().enumerate() {
        let followed = is_followed(&branches[index + 1..], last);
        put(lines, inside.mark, Instr::Jump(end))?;
        put_branch(
            lines,
            setting,
            inside,
            &branch.body,
            &branch.condition,
            followed,
        )?;
    }
    Ok(())
}

/// The `else` of an `if`, if it has one, with the jump past it.
#[cycle(statements)]
pub fn put_else(
    lines: &mut Vec<CodeLine>,
    setting: &Setting<'_>,
    inside: Inside,
    last: &Option<Block>,
    end: u32,
) -> Result<(), AllocError>
    requires space { HasSpace inside.mark inside.free }
    requires fits { OtherwiseFits (setting_of setting.now) inside.mark inside.free (else_of (option_map block_of last.now)) }
    requires places { length lines.old.items
        + followed_size (setting_of setting.now) inside.mark.tries inside.enclosing.tries (else_of (option_map block_of last.now)) < 2 ^ 31 }
    ensures code { OnOk result (lines.new.items ≡ lines.old.items
        ++ followed_code (setting_of setting.now) (inside_of inside) (length lines.old.items) end (else_of (option_map block_of last.now))) }
    ensures longer { OnOk result (length lines.new.items ≡ length lines.old.items
        + followed_size (setting_of setting.now) inside.mark.tries inside.enclosing.tries (else_of (option_map block_of last.now))) }
{
    match last {
        Some(body) => {
            put(lines, inside.mark, Instr::Jump(end))?;
            put_block(lines, setting, inside, body)
        }
        None => Ok(()),
    }
}
