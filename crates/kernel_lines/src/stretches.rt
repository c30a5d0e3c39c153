// Stretches of instructions that belong to one line.

ghost use Rattle.std.specs.Prelude.{◌≡◌, ◌++◌, OnOk};
ghost use Rattle.kernel_lines.specs.KernelLines.{of_line};

use std::alloc::AllocError;

/// Puts a line behind those that there are, once for each of so many instructions.
pub fn put_line(lines: &mut Vec<u32>, line: u32, count: u32) -> Result<(), AllocError>
    ensures { OnOk result (lines.new.items ≡ lines.old.items ++ of_line line count) }
{
    for _ in 0..count {
        lines.push(line)?;
    }
    Ok(())
}
