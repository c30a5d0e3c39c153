// The pieces of code that stand behind and between the operands of an expression.

ghost use Rattle.std.specs.Prelude.{◌≡◌, ◌+◌, ◌<◌, ◌^◌, ◌++◌, [], ◌∷◌, OnOk, length, pos};
ghost use Rattle.kern_calls.specs.Calls.{look_up};
ghost use Rattle.core_isa.specs.declared.instr.Instr.TheVariants as I;
ghost use Rattle.code_forms.specs.ExpressionCode.{dropped, filled};
ghost use Rattle.code_forms.specs.Lines.{line, raised};
ghost use Rattle.code_forms.specs.Operations.{load_instr};
ghost use Rattle.core_code_names.specs.SettingOf.{setting_of};

use core_code_names::Setting;
use core_code_operations::lines::{put, raised};
use core_isa::{CodeLine, Instr, Mark};
use kern_calls::ValueType;
use std::alloc::AllocError;

/// The instruction that leaves the value of a name: 0 for what isn't a number.
pub fn load_instr(setting: &Setting<'_>, name: &[u8]) -> Instr
    ensures { result ≡ load_instr (setting_of setting.now) name.now (look_up (setting_of setting.now).scope.names name.now) }
{
    match setting.name_kind(name) {
        None | Some(ValueType::Array(_)) => Instr::Const(0),
        Some(_) => Instr::Load(setting.slot(name)),
    }
}

/// Puts a 0 where a call has no value.
pub fn put_filler(lines: &mut Vec<CodeLine>, mark: Mark, has_value: bool) -> Result<(), AllocError>
    ensures { OnOk result (lines.new.items ≡ lines.old.items ++ filled mark has_value) }
{
    if has_value {
        return Ok(());
    }
    put(lines, mark, Instr::Const(0))
}

/// Drops the value of a call, where it has one.
pub fn put_dropped(lines: &mut Vec<CodeLine>, mark: Mark, has_value: bool) -> Result<(), AllocError>
    requires { mark.height + 1 < 256 }
    ensures { OnOk result (lines.new.items ≡ lines.old.items ++ dropped mark has_value) }
{
    if has_value {
        return put(lines, raised(mark, 1), Instr::Pop);
    }
    Ok(())
}

/// Puts what stands between the operands of `and`, of which the second one has so many instructions: where the first one is
/// false, the 0 behind the second one is the value.
pub fn put_and_test(lines: &mut Vec<CodeLine>, mark: Mark, second: u32) -> Result<(), AllocError>
    requires height { mark.height + 1 < 256 }
    requires places { length lines.old.items + 1 + second + 1 < 2 ^ 32 }
    ensures { OnOk result (lines.new.items
        ≡ lines.old.items ++ line (raised 1 mark) (I.JumpZero (length lines.old.items + 1 + second + 1)) ∷ []) }
{
    let place = lines.len() as u32;
    put(
        lines,
        raised(mark, 1),
        Instr::JumpZero(place + 1 + second + 1),
    )
}

/// Puts what stands behind the operands of `and`: the second one's value, or else 0.
pub fn put_and_end(lines: &mut Vec<CodeLine>, mark: Mark) -> Result<(), AllocError>
    requires height { mark.height + 1 < 256 }
    requires places { length lines.old.items + 2 < 2 ^ 32 }
    ensures { OnOk result (lines.new.items
        ≡ lines.old.items ++ line (raised 1 mark) (I.Jump (length lines.old.items + 2)) ∷ line mark (I.Const (pos 0)) ∷ []) }
{
    let place = lines.len() as u32;
    put(lines, raised(mark, 1), Instr::Jump(place + 2))?;
    put(lines, mark, Instr::Const(0))
}

/// Puts what stands between the operands of `or`, of which the second one has so many instructions: where the first one is
/// true, 1 is the value.
pub fn put_or_test(lines: &mut Vec<CodeLine>, mark: Mark, second: u32) -> Result<(), AllocError>
    requires height { mark.height + 1 < 256 }
    requires places { length lines.old.items + 3 + second < 2 ^ 32 }
    ensures { OnOk result (lines.new.items
        ≡ lines.old.items
        ++ line (raised 1 mark) (I.JumpZero (length lines.old.items + 3))
        ∷ line mark (I.Const (pos 1))
        ∷ line (raised 1 mark) (I.Jump (length lines.old.items + 3 + second))
        ∷ []) }
{
    let place = lines.len() as u32;
    put(lines, raised(mark, 1), Instr::JumpZero(place + 3))?;
    put(lines, mark, Instr::Const(1))?;
    put(lines, raised(mark, 1), Instr::Jump(place + 3 + second))
}
