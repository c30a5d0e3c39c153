// The lines of the body of a function.

ghost use Rattle.std.specs.Prelude.{◌≡◌, ◌<◌, ◌^◌, ◌++◌, OnOk};
ghost use Rattle.kern_syntax.specs.TreeOf.{block_of};
ghost use Rattle.code_forms.specs.Sizes.{block_size};
ghost use Rattle.core_code_names.specs.SettingOf.{setting_of};
ghost use Rattle.kernel_lines.specs.KernelLines.{body_lines};

use crate::blocks::put_block;
use crate::stretches::put_line;
use core_code_names::Setting;
use kern_syntax::Block;
use std::alloc::AllocError;

/// Puts the lines of the body of a function, whose `def` stands at a line, behind those that there are, and its end, which has
/// the line of its `def`.
pub fn put_body(
    lines: &mut Vec<u32>,
    setting: &Setting<'_>,
    line: u32,
    body: &Block,
) -> Result<(), AllocError>
    requires { block_size (setting_of setting.now) 0 0 (block_of body.now) < 2 ^ 32 }
    ensures { OnOk result (lines.new.items ≡ lines.old.items ++ body_lines (setting_of setting.now) line (block_of body.now)) }
{
    put_block(lines, setting, 0, 0, body)?;
    put_line(lines, line, u32::from(setting.value) + 1)
}
