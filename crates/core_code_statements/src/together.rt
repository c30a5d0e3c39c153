// The code of parallel blocks.

ghost use Rattle.std.specs.Prelude.{◌≡◌, ◌+◌, ◌<◌, ◌^◌, ◌++◌, OnOk, length};
ghost use Rattle.kern_syntax.specs.Tree.{parallel};
ghost use Rattle.kern_syntax.specs.TreeOf.{block_of};
ghost use Rattle.code_forms.specs.Sizes.{statement_size};
ghost use Rattle.code_forms.specs.StatementCode.{statement_code};
ghost use Rattle.code_ranges.specs.ReadyStatements.{HasSpace, BlockFits, StatementFits};
ghost use Rattle.core_code_names.specs.SettingOf.{setting_of};
ghost use Rattle.core_code_simple.specs.InsideOf.{inside_of};

use crate::blocks::put_statement;
use core_code_names::Setting;
use core_code_simple::Inside;
use core_code_simple::lines::put_all;
use core_code_sizes::has_second;
use core_isa::{CodeLine, Instr};
use kern_syntax::Block;
use std::alloc::AllocError;

/// A parallel block keeps the greatest end in a free slot and, if there is a second statement, its start in another one.
#[cycle(statements)]
pub fn put_parallel(
    lines: &mut Vec<CodeLine>,
    setting: &Setting<'_>,
    inside: Inside,
    body: &Block,
) -> Result<(), AllocError>
    requires space { HasSpace inside.mark inside.free }
    requires fits { StatementFits (setting_of setting.now) inside.mark inside.free (parallel (block_of body.now)) }
    requires places { length lines.old.items
        + statement_size (setting_of setting.now) inside.mark.tries inside.enclosing.tries (parallel (block_of body.now)) < 2 ^ 31 }
    ensures code { OnOk result (lines.new.items ≡ lines.old.items
        ++ statement_code (setting_of setting.now) (inside_of inside) (length lines.old.items) (parallel (block_of body.now))) }
    ensures longer { OnOk result (length lines.new.items ≡ length lines.old.items
        + statement_size (setting_of setting.now) inside.mark.tries inside.enclosing.tries (parallel (block_of body.now))) }
{
    let together = Inside {
        free: inside.free + 2,
        ..inside
    };
    put_begin(lines, inside, has_second(&body.statements))?;
    put_together(lines, setting, together, body)
}

ghost use Rattle.std.specs.Prelude.{◌≤◌};
ghost use Rattle.code_forms.specs.Sizes.{parallel_size};
ghost use Rattle.code_forms.specs.StatementCode.{parallel_code};

// The first statement of a parallel block begins where the cursor is, and each other at the start; of their ends the greatest
// counts.
#[cycle(statements)]
fn put_together(
    lines: &mut Vec<CodeLine>,
    setting: &Setting<'_>,
    inside: Inside,
    body: &Block,
) -> Result<(), AllocError>
    requires space { HasSpace inside.mark inside.free }
    requires slots { 2 ≤ inside.free }
    requires fits { BlockFits (setting_of setting.now) inside.mark inside.free (block_of body.now) }
    requires places { length lines.old.items
        + parallel_size (setting_of setting.now) inside.mark.tries inside.enclosing.tries (block_of body.now) < 2 ^ 31 }
    ensures code { OnOk result (lines.new.items ≡ lines.old.items
        ++ parallel_code (setting_of setting.now) (inside_of inside) (length lines.old.items) (block_of body.now)) }
    ensures longer { OnOk result (length lines.new.items ≡ length lines.old.items
        + parallel_size (setting_of setting.now) inside.mark.tries inside.enclosing.tries (block_of body.now)) }
{
    for (number, statement) in body.statements.iter().enumerate() {
        if number > 0 {
            put_next_begin(lines, inside)?;
        }
        put_statement(lines, setting, inside, &statement.kind)?;
    }
    if body.statements.is_empty() {
        return Ok(());
    }
    put_end(lines, inside)
}

ghost use Rattle.code_forms.specs.Lines.{straight};
ghost use Rattle.code_forms.specs.Sizes.{parallel_begin_size};
ghost use Rattle.code_forms.specs.StatementCode.{parallel_begins, parallel_ends, next_begins};

// The cursor is kept as the greatest end so far and, if there is a second statement, as its start too.
fn put_begin(lines: &mut Vec<CodeLine>, inside: Inside, second: bool) -> Result<(), AllocError>
    requires { HasSpace inside.mark inside.free }
    ensures code { OnOk result (lines.new.items ≡ lines.old.items
        ++ straight inside.mark (parallel_begins (inside_of inside) second)) }
    ensures longer { OnOk result (length lines.new.items ≡ length lines.old.items + parallel_begin_size second) }
{
    let greatest = inside.free + 1;
    if second {
        let start = inside.free;
        let begins = [
            Instr::Now,
            Instr::Dup,
            Instr::Store(start),
            Instr::Store(greatest),
        ];
        put_all(lines, inside.mark, &begins)
    } else {
        put_all(lines, inside.mark, &[Instr::Now, Instr::Store(greatest)])
    }
}

// A statement has ended, whose end counts where it is the greatest, and the next one begins at the start.
fn put_next_begin(lines: &mut Vec<CodeLine>, inside: Inside) -> Result<(), AllocError>
    requires space { HasSpace inside.mark inside.free }
    requires slots { 2 ≤ inside.free }
    ensures code { OnOk result (lines.new.items ≡ lines.old.items ++ straight inside.mark (next_begins (inside_of inside))) }
    ensures longer { OnOk result (length lines.new.items ≡ length lines.old.items + 6) }
{
    let (start, greatest) = (inside.free - 2, inside.free - 1);
    let begins = [
        Instr::Load(greatest),
        Instr::Now,
        Instr::Max,
        Instr::Store(greatest),
        Instr::Load(start),
        Instr::At,
    ];
    put_all(lines, inside.mark, &begins)
}

// The last statement has ended, and the block ends at the greatest end.
fn put_end(lines: &mut Vec<CodeLine>, inside: Inside) -> Result<(), AllocError>
    requires space { HasSpace inside.mark inside.free }
    requires slots { 2 ≤ inside.free }
    ensures code { OnOk result (lines.new.items ≡ lines.old.items ++ straight inside.mark (parallel_ends (inside_of inside))) }
    ensures longer { OnOk result (length lines.new.items ≡ length lines.old.items + 4) }
{
    let greatest = inside.free - 1;
    let ends = [Instr::Load(greatest), Instr::Now, Instr::Max, Instr::At];
    put_all(lines, inside.mark, &ends)
}
