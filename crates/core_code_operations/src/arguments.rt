// What stands among the arguments of a call beside its numbers.

ghost use Rattle.std.specs.Prelude.{◌≡◌, option_map};
ghost use Rattle.kern_syntax.specs.Tree.{no_more};
ghost use Rattle.kern_syntax.specs.TreeOf.{expression_of, argument_of, arguments_of};
ghost use Rattle.timeline_sem.specs.Expressions.{array_in, text_in};
ghost use Rattle.code_forms.specs.Operations.{array_argument};
ghost use Rattle.core_code_names.specs.SettingOf.{setting_of};
ghost use Rattle.core_code_operations.specs.Rows.{row_of};

use core_code_names::Setting;
use kern_calls::ValueType;
use kern_syntax::{Argument, Expr};

/// An array among the slots of a function.
#[derive(Clone, Copy, Debug, PartialEq, Eq)]
pub struct Row {
    /// Its first slot.
    pub first: u16,
    /// How many elements it has.
    pub length: u16,
}

/// The first text among the arguments of a call; none at all counts as an empty one.
pub fn text_in(arguments: &[Argument]) -> &[u8]
    ensures { result.now ≡ text_in (arguments_of arguments.now) }
{
    for argument in arguments.iter() {
        if let Argument::Text(text) = argument {
            return text.bytes();
        }
    }
    &[]
}

// The array that an expression names, if it names one.
fn array_in(setting: &Setting<'_>, e: &Expr) -> Option<Row>
    ensures { result ≡ option_map (row_of (setting_of setting.now)) (array_in (setting_of setting.now).scope (expression_of e.now)) }
{
    match e {
        Expr::Variable(name) => row_named(setting, name.bytes()),
        Expr::Group(inner) => array_in(setting, inner),
        _ => None,
    }
}

ghost use Rattle.kern_syntax.specs.Tree.{variable};

// The array of a name, if it is that of one.
fn row_named(setting: &Setting<'_>, name: &[u8]) -> Option<Row>
    ensures { result ≡ option_map (row_of (setting_of setting.now)) (array_in (setting_of setting.now).scope (variable name.now)) }
{
    match setting.name_kind(name) {
        Some(ValueType::Array(length)) => Some(Row {
            first: setting.slot(name),
            length,
        }),
        _ => None,
    }
}

/// The array that is the first of a call's arguments which isn't a text, if that is one.
pub fn array_argument(setting: &Setting<'_>, arguments: &[Argument]) -> Option<Row>
    ensures { result ≡ option_map (row_of (setting_of setting.now)) (array_argument (setting_of setting.now) (arguments_of arguments.now)) }
{
    for argument in arguments.iter() {
        if let Argument::Value(e) = argument {
            return array_in(setting, e);
        }
    }
    None
}
