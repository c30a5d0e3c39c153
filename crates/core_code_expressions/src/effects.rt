// Expressions whose value isn't wanted.

ghost use Rattle.std.specs.Prelude.{◌≡◌, ◌+◌, ◌++◌, OnOk, length};
ghost use Rattle.kern_syntax.specs.TreeOf.{expression_of};
ghost use Rattle.code_forms.specs.ExpressionCode.{effect_code};
ghost use Rattle.code_forms.specs.Sizes.{effect_size};
ghost use Rattle.code_ranges.specs.Ready.{IsReadyAlone};
ghost use Rattle.core_code_names.specs.SettingOf.{setting_of};

use crate::expressions::{put_call, put_expression, put_method};
use crate::pieces::put_dropped;
use core_code_names::Setting;
use core_code_operations::method_has_value;
use core_isa::{CodeLine, Mark};
use kern_syntax::Expr;
use std::alloc::AllocError;

/// Puts the code of an expression whose value isn't wanted, behind the lines that there are: it leaves nothing. The slot
/// `free` and those behind it are free.
pub fn put_effect(
    lines: &mut Vec<CodeLine>,
    setting: &Setting<'_>,
    free: u16,
    mark: Mark,
    e: &Expr,
) -> Result<(), AllocError>
    requires { IsReadyAlone (setting_of setting.now) mark (length lines.old.items) (expression_of e.now) }
    ensures code { OnOk result (lines.new.items ≡ lines.old.items
        ++ effect_code (setting_of setting.now) free mark (length lines.old.items) (expression_of e.now)) }
    ensures longer { OnOk result (length lines.new.items ≡ length lines.old.items + effect_size (setting_of setting.now) (expression_of e.now)) }
{
    match e {
        Expr::Group(inner) => put_effect(lines, setting, free, mark, inner),
        Expr::Call(name, arguments) => {
            let callee = put_call(lines, setting, free, mark, name, arguments)?;
            put_dropped(lines, mark, callee.has_value)
        }
        Expr::Method(object, name, arguments) => {
            let method = put_method(lines, setting, free, mark, object, name, arguments)?;
            put_dropped(lines, mark, method_has_value(method))
        }
        _ => {
            put_expression(lines, setting, free, mark, e)?;
            put_dropped(lines, mark, true)
        }
    }
}
