// The code of loops.

ghost use Rattle.std.specs.Prelude.{◌≡◌, ◌+◌, ◌<◌, ◌^◌, ◌++◌, OnOk, length};
ghost use Rattle.kern_syntax.specs.Tree.{while_do};
ghost use Rattle.kern_syntax.specs.TreeOf.{block_of, expression_of};
ghost use Rattle.code_forms.specs.Sizes.{block_size, statement_size};
ghost use Rattle.code_forms.specs.StatementCode.{statement_code};
ghost use Rattle.code_ranges.specs.ReadyStatements.{HasSpace, BlockFits, StatementFits};
ghost use Rattle.core_code_names.specs.SettingOf.{setting_of};
ghost use Rattle.core_code_simple.specs.InsideOf.{inside_of};

use crate::blocks::put_block;
use code_forms::TestKind;
use core_code_names::Setting;
use core_code_simple::lines::{put_all, raised};
use core_code_simple::{Inside, LoopPlaces, put_asked, put_expression, put_loop_test};
use core_code_sizes::{asked_size, block_size, is_turned, loop_size};
use core_isa::{CodeLine, Instr};
use kern_syntax::{Block, Expr};
use std::alloc::AllocError;

// How many instructions the body of a loop has.
fn turn_size(setting: &Setting<'_>, inside: Inside, body: &Block) -> u32
    requires { inside.mark.tries + block_size (setting_of setting.now) inside.mark.tries inside.mark.tries (block_of body.now) < 2 ^ 32 }
    ensures { result ≡ block_size (setting_of setting.now) inside.mark.tries inside.mark.tries (block_of body.now) }
{
    let tries = u32::from(inside.mark.tries);
    block_size(setting, tries, tries, body)
}

/// A `while` begins at its condition, which stands behind its body.
#[cycle(statements)]
pub fn put_while(
    lines: &mut Vec<CodeLine>,
    setting: &Setting<'_>,
    inside: Inside,
    body: &Block,
    condition: &Expr,
) -> Result<(), AllocError>
    requires space { HasSpace inside.mark inside.free }
    requires fits { StatementFits (setting_of setting.now) inside.mark inside.free (while_do (expression_of condition.now) (block_of body.now)) }
    requires places { length lines.old.items
        + statement_size (setting_of setting.now) inside.mark.tries inside.enclosing.tries (while_do (expression_of condition.now) (block_of body.now)) < 2 ^ 31 }
    ensures code { OnOk result (lines.new.items ≡ lines.old.items
        ++ statement_code (setting_of setting.now) (inside_of inside) (length lines.old.items) (while_do (expression_of condition.now) (block_of body.now))) }
    ensures longer { OnOk result (length lines.new.items ≡ length lines.old.items
        + statement_size (setting_of setting.now) inside.mark.tries inside.enclosing.tries (while_do (expression_of condition.now) (block_of body.now))) }
{
    let place = lines.len() as u32;
    let again = place + 2 + turn_size(setting, inside, body);
    let test = TestKind::LoopEnd;
    let turned = is_turned(test, condition);
    let past = again + asked_size(setting, test, condition) + loop_size(turned);
    let tries = inside.mark.tries;
    let turn = Inside {
        enclosing: LoopPlaces { again, past, tries },
        ..inside
    };
    put_all(lines, inside.mark, &[Instr::Jump(again), Instr::Turn])?;
    put_block(lines, setting, turn, body)?;
    put_asked(lines, setting, inside.free, inside.mark, test, condition)?;
    put_loop_test(lines, raised(inside.mark, 1), turned, place + 1, past)
}

ghost use Rattle.code_forms.specs.Lines.{raised, straight};
ghost use Rattle.code_ranges.specs.Ready.{ExpressionFits};
ghost use Rattle.core_code_statements.specs.Parts.{turns_code, turns_size};

/// The turns of a `for`, whose first bound is on the operands: the number of the next turn and the bound behind the last one
/// stand in two free slots.
#[cycle(statements)]
pub fn put_turns(
    lines: &mut Vec<CodeLine>,
    setting: &Setting<'_>,
    inside: Inside,
    body: &Block,
    name: &[u8],
    to: &Expr,
) -> Result<(), AllocError>
    requires space { HasSpace inside.mark inside.free }
    requires bound { ExpressionFits (raised 1 inside.mark) (expression_of to.now) }
    requires kept { HasSpace inside.mark (inside.free + 2) }
    requires fits { BlockFits (setting_of setting.now) inside.mark (inside.free + 2) (block_of body.now) }
    requires places { length lines.old.items
        + turns_size (setting_of setting.now) (inside_of inside) (expression_of to.now) (block_of body.now) < 2 ^ 31 }
    ensures code { OnOk result (lines.new.items ≡ lines.old.items
        ++ turns_code (setting_of setting.now) (inside_of inside) (length lines.old.items) name.now (expression_of to.now) (block_of body.now)) }
    ensures longer { OnOk result (length lines.new.items ≡ length lines.old.items
        + turns_size (setting_of setting.now) (inside_of inside) (expression_of to.now) (block_of body.now)) }
{
    put_expression(lines, setting, inside.free, raised(inside.mark, 1), to)?;
    let place = lines.len() as u32;
    let again = place + 10 + turn_size(setting, inside, body);
    put_turn_begin(lines, setting, inside, name, again)?;
    let tries = inside.mark.tries;
    let turn = Inside {
        free: inside.free + 2,
        enclosing: LoopPlaces {
            again,
            past: again + 4,
            tries,
        },
        ..inside
    };
    put_block(lines, setting, turn, body)?;
    put_turn_end(lines, inside, place + 3)
}

ghost use Rattle.code_forms.specs.StatementCode.{for_begins, for_goes_on};

// The two bounds are kept, and a turn begins: its number goes into the name, and that of the next one is kept.
fn put_turn_begin(
    lines: &mut Vec<CodeLine>,
    setting: &Setting<'_>,
    inside: Inside,
    name: &[u8],
    again: u32,
) -> Result<(), AllocError>
    requires { HasSpace inside.mark inside.free }
    ensures code { OnOk result (lines.new.items ≡ lines.old.items
        ++ straight (raised 2 inside.mark) (for_begins (setting_of setting.now) (inside_of inside) name.now again)) }
    ensures longer { OnOk result (length lines.new.items ≡ length lines.old.items + 10) }
{
    let (next, end) = (inside.free, inside.free + 1);
    let begins = [
        Instr::Store(end),
        Instr::Store(next),
        Instr::Jump(again),
        Instr::Turn,
        Instr::Load(next),
        Instr::Dup,
        Instr::Store(setting.slot(name)),
        Instr::Const(1),
        Instr::Add,
        Instr::Store(next),
    ];
    put_all(lines, raised(inside.mark, 2), &begins)
}

// Another turn begins unless the bound is reached.
fn put_turn_end(lines: &mut Vec<CodeLine>, inside: Inside, turn: u32) -> Result<(), AllocError>
    requires { HasSpace inside.mark inside.free }
    ensures code { OnOk result (lines.new.items ≡ lines.old.items ++ straight inside.mark (for_goes_on (inside_of inside) turn)) }
    ensures longer { OnOk result (length lines.new.items ≡ length lines.old.items + 4) }
{
    let (next, end) = (inside.free, inside.free + 1);
    let ends = [
        Instr::Load(end),
        Instr::Load(next),
        Instr::Le,
        Instr::JumpZero(turn),
    ];
    put_all(lines, inside.mark, &ends)
}
