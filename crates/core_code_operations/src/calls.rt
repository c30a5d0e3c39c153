// Calls by name.

ghost use Rattle.std.specs.Prelude.{◌≡◌, length};
ghost use Rattle.std.specs.Option.{option_to_list};
ghost use Rattle.kern_calls.specs.Calls.{builtin_named};
ghost use Rattle.kern_calls.specs.Types.{call_type};
ghost use Rattle.kern_syntax.specs.TreeOf.{arguments_of};
ghost use Rattle.timeline_sem.specs.Expressions.{text_in};
ghost use Rattle.code_forms.specs.Operations.{array_argument, call_has_value, call_instrs, data_instr, length_instr, builtin_instrs, takes_numbers};
ghost use Rattle.core_code_names.specs.SettingOf.{setting_of};

use crate::arguments::{array_argument, text_in};
use core_code_lines::put_all;
use core_code_names::Setting;
use core_isa::{CodeLine, Instr, Mark};
use kern_calls::{Builtin, ValueType, builtin_named, result_type};
use kern_syntax::Argument;
use std::alloc::AllocError;

/// What a call by name becomes.
#[derive(Clone, Copy, Debug, PartialEq, Eq)]
pub struct Callee {
    /// Its instruction. A call whose value is its number has none.
    pub instr: Option<Instr>,
    /// Whether its numbers are evaluated. An array isn't one.
    pub takes_numbers: bool,
    /// Whether it leaves a value.
    pub has_value: bool,
    /// The type of its value; int64 where it leaves none.
    pub kind: ValueType,
}

impl Callee {
    ghost use Rattle.std.specs.Prelude.{◌≡◌, ◌++◌, OnOk, length};
    ghost use Rattle.std.specs.Option.{option_to_list};
    ghost use Rattle.code_forms.specs.Lines.{straight};
    ghost use Rattle.core_code_lines.specs.Room.{HasRoom};

    /// How many instructions it has: one, or none.
    pub fn size(&self) -> u32
        ensures { result ≡ length (option_to_list self.now.instr) }
    {
        match self.instr {
            Some(_) => 1,
            None => 0,
        }
    }

    /// Puts its instruction under a mark that counts its numbers.
    pub fn put(&self, lines: &mut Vec<CodeLine>, mark: Mark) -> Result<(), AllocError>
        requires { HasRoom mark 1 }
        ensures { OnOk result (lines.new.items ≡ lines.old.items ++ straight mark (option_to_list self.now.instr)) }
    {
        match self.instr {
            Some(instr) => put_all(lines, mark, &[instr]),
            None => Ok(()),
        }
    }
}

/// What a call by name becomes: of a function of the language, or else of the program.
pub fn callee_of(setting: &Setting<'_>, name: &[u8], arguments: &[Argument]) -> Callee
    ensures instr { option_to_list result.instr
        ≡ call_instrs (setting_of setting.now) name.now (text_in (arguments_of arguments.now)) (array_argument (setting_of setting.now) (arguments_of arguments.now)) (builtin_named name.now) }
    ensures takes_numbers { result.takes_numbers ≡ takes_numbers (array_argument (setting_of setting.now) (arguments_of arguments.now)) (builtin_named name.now) }
    ensures has_value { result.has_value ≡ call_has_value (setting_of setting.now) name.now (builtin_named name.now) }
    ensures kind { result.kind ≡ call_type (setting_of setting.now).scope.program name.now (builtin_named name.now) }
{
    match builtin_named(name) {
        Some(builtin) => Callee {
            instr: builtin_instr(setting, builtin, arguments),
            takes_numbers: builtin_takes_numbers(setting, builtin, arguments),
            has_value: builtin.result().is_some(),
            kind: result_type(builtin.result()),
        },
        None => Callee {
            instr: Some(Instr::Call(setting.function_index(name))),
            takes_numbers: true,
            has_value: setting.has_value(name),
            kind: result_type(setting.function_result(name)),
        },
    }
}

ghost use Rattle.std.specs.Prelude.{Some};

// The instruction of a function of the language.
fn builtin_instr(setting: &Setting<'_>, builtin: Builtin, arguments: &[Argument]) -> Option<Instr>
    ensures { option_to_list result
        ≡ builtin_instrs (setting_of setting.now) (text_in (arguments_of arguments.now)) (array_argument (setting_of setting.now) (arguments_of arguments.now)) builtin }
{
    match builtin {
        Builtin::NowMu => Some(Instr::Now),
        Builtin::AtMu => Some(Instr::At),
        Builtin::DelayMu => Some(Instr::Delay),
        Builtin::SetDataset => Some(data_instr(setting, arguments)),
        Builtin::Len => Some(length_instr(setting, arguments)),
        Builtin::ToInt32 => Some(Instr::Wrap32),
        Builtin::ToInt64 => None,
    }
}

// Whether the numbers of a call of a function of the language are evaluated.
fn builtin_takes_numbers(setting: &Setting<'_>, builtin: Builtin, arguments: &[Argument]) -> bool
    ensures { result ≡ takes_numbers (array_argument (setting_of setting.now) (arguments_of arguments.now)) (Some builtin) }
{
    match builtin {
        Builtin::SetDataset => array_argument(setting, arguments).is_none(),
        Builtin::Len => false,
        _ => true,
    }
}

// A dataset is set to the numbers of an array, or else to a number.
fn data_instr(setting: &Setting<'_>, arguments: &[Argument]) -> Instr
    ensures { result ≡ data_instr (setting_of setting.now) (text_in (arguments_of arguments.now)) (array_argument (setting_of setting.now) (arguments_of arguments.now)) }
{
    let index = setting.text_index(text_in(arguments));
    match array_argument(setting, arguments) {
        Some(row) => Instr::DataList(index, row.first, row.length),
        None => Instr::DataInt(index),
    }
}

// The length of an array.
fn length_instr(setting: &Setting<'_>, arguments: &[Argument]) -> Instr
    ensures { result ≡ length_instr (setting_of setting.now) (array_argument (setting_of setting.now) (arguments_of arguments.now)) }
{
    match array_argument(setting, arguments) {
        Some(row) => Instr::Const(i64::from(row.length)),
        None => Instr::Const(0),
    }
}
