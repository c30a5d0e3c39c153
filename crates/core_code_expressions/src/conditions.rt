// The code of what is asked for a condition of a branch or of a `while`.

ghost use Rattle.std.specs.Prelude.{◌≡◌, ◌+◌, ◌++◌, OnOk, length};
ghost use Rattle.kern_syntax.specs.TreeOf.{expression_of};
ghost use Rattle.code_forms.specs.Conditions.{asked};
ghost use Rattle.code_forms.specs.ExpressionCode.{expression_code};
ghost use Rattle.code_forms.specs.Sizes.{expression_size};
ghost use Rattle.code_ranges.specs.Ready.{IsReady};
ghost use Rattle.core_code_names.specs.SettingOf.{setting_of};

use crate::expressions::put_expression;
use code_forms::TestKind;
use core_code_names::Setting;
use core_code_operations::lines::raised;
use core_code_operations::{asked_comparison, meant, put_comparison};
use core_code_sizes::bare;
use core_isa::{CodeLine, Mark};
use kern_syntax::Expr;
use std::alloc::AllocError;

/// Puts the code of what is asked for a condition, which leaves the answer, behind the lines that there are.
pub fn put_asked(
    lines: &mut Vec<CodeLine>,
    setting: &Setting<'_>,
    free: u16,
    mark: Mark,
    test: TestKind,
    condition: &Expr,
) -> Result<(), AllocError>
    requires { IsReady (setting_of setting.now) mark (length lines.old.items) (asked test (expression_of condition.now)) }
    ensures code { OnOk result (lines.new.items ≡ lines.old.items
        ++ expression_code (setting_of setting.now) free mark (length lines.old.items) (asked test (expression_of condition.now))) }
    ensures longer { OnOk result (length lines.new.items ≡ length lines.old.items
        + expression_size (setting_of setting.now) (asked test (expression_of condition.now))) }
{
    let (contrary, behind) = bare(condition);
    match behind {
        Expr::Compare(comparison, left, right) => {
            let asked = asked_comparison(meant(contrary, *comparison), test);
            put_expression(lines, setting, free, mark, left)?;
            put_expression(lines, setting, free, raised(mark, 1), right)?;
            put_comparison(lines, raised(mark, 2), asked)
        }
        _ => {
            put_expression(lines, setting, free, mark, behind)?;
            Ok(())
        }
    }
}
