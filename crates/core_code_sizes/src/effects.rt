// Expressions whose value isn't wanted.

ghost use Rattle.std.specs.Prelude.{◌≡◌, ◌<◌, ◌^◌};
ghost use Rattle.kern_syntax.specs.TreeOf.{expression_of};
ghost use Rattle.code_forms.specs.Sizes.{effect_size};
ghost use Rattle.core_code_names.specs.SettingOf.{setting_of};

use crate::expressions::{arguments_size, call_size, expression_size};
use crate::pieces::when;
use core_code_names::Setting;
use core_code_operations::{method_has_value, method_size};
use kern_calls::method_named;
use kern_syntax::Expr;

/// How many instructions the code of an expression has whose value isn't wanted.
pub fn effect_size(setting: &Setting<'_>, e: &Expr) -> u32
    requires { effect_size (setting_of setting.now) (expression_of e.now) < 2 ^ 32 }
    ensures { result ≡ effect_size (setting_of setting.now) (expression_of e.now) }
{
    match e {
        Expr::Group(inner) => effect_size(setting, inner),
        Expr::Call(name, arguments) => {
            let (size, callee) = call_size(setting, name.bytes(), arguments);
            size + when(callee.has_value)
        }
        Expr::Method(object, name, arguments) => {
            let method = method_named(object.bytes(), name.bytes());
            let size = arguments_size(setting, arguments) + method_size(method);
            size + when(method_has_value(method))
        }
        _ => expression_size(setting, e).size + 1,
    }
}
