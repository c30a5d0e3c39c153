// The code of the body of a function.

ghost use Rattle.std.specs.Prelude.{◌≡◌, ◌+◌, ◌++◌, OnOk, length};
ghost use Rattle.kern_syntax.specs.TreeOf.{block_of};
ghost use Rattle.core_isa.specs.Marks.{first_mark};
ghost use Rattle.code_forms.specs.Programs.{body_code, body_inside, body_size};
ghost use Rattle.code_ranges.specs.ReadyStatements.{IsReadyBlock};
ghost use Rattle.core_code_names.specs.SettingOf.{setting_of};

use crate::blocks::put_block;
use core_code_names::Setting;
use core_code_simple::lines::{put, put_all};
use core_code_simple::{Inside, LoopPlaces};
use core_isa::{CodeLine, Instr, Mark};
use kern_syntax::Block;
use std::alloc::AllocError;

// At the first instruction of a function nothing lies on the operands, and there is no handler and no recording.
const FIRST_MARK: Mark = Mark {
    height: 0,
    tries: 0,
    rec: 0,
};

/// Puts the code of the body of a function behind the lines that there are, and its end: the function returns 0 where it has
/// a value and no `return` was met.
pub fn put_body(
    lines: &mut Vec<CodeLine>,
    setting: &Setting<'_>,
    body: &Block,
) -> Result<(), AllocError>
    requires { IsReadyBlock (setting_of setting.now) (body_inside (setting_of setting.now)) (length lines.old.items) (block_of body.now) }
    ensures code { OnOk result (lines.new.items ≡ lines.old.items
        ++ body_code (setting_of setting.now) (length lines.old.items) (block_of body.now)) }
    ensures longer { OnOk result (length lines.new.items ≡ length lines.old.items + body_size (setting_of setting.now) (block_of body.now)) }
{
    let no_loop = LoopPlaces {
        again: 0,
        past: 0,
        tries: 0,
    };
    let inside = Inside {
        mark: FIRST_MARK,
        free: setting.names.slots(),
        enclosing: no_loop,
    };
    put_block(lines, setting, inside, body)?;
    if setting.value {
        put_all(lines, FIRST_MARK, &[Instr::Const(0), Instr::Return])
    } else {
        put(lines, FIRST_MARK, Instr::Return)
    }
}
