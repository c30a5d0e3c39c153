// Conditions of branches and of `while`: what stands behind parentheses and each `not` is asked, and of a comparison the opposite
// where that takes fewer instructions.

ghost use Rattle.std.specs.Prelude.{◌≡◌, ◌<◌, ◌^◌};
ghost use Rattle.kern_syntax.specs.TreeOf.{expression_of};
ghost use Rattle.code_forms.specs.Conditions.{asked, bare, is_contrary, is_turned};
ghost use Rattle.code_forms.specs.Sizes.{expression_size};
ghost use Rattle.core_code_names.specs.SettingOf.{setting_of};

use crate::expressions::expression_size;
use code_forms::TestKind;
use core_code_names::Setting;
use core_code_operations::{asked_comparison, comparison_size, is_opposed, meant};
use kern_syntax::Expr;

/// Whether a condition is the opposite of what stands behind its parentheses and each `not`, and what stands there.
pub fn bare(condition: &Expr) -> (bool, &Expr)
    ensures contrary { result.0 ≡ is_contrary (expression_of condition.now) }
    ensures behind { expression_of result.1.now ≡ bare (expression_of condition.now) }
{
    match condition {
        Expr::Group(inner) => bare(inner),
        Expr::Not(operand) => {
            let (contrary, behind) = bare(operand);
            (!contrary, behind)
        }
        _ => (false, condition),
    }
}

/// Whether the opposite of a condition is asked, with the test at this place.
pub fn is_turned(test: TestKind, condition: &Expr) -> bool
    ensures { result ≡ is_turned test (expression_of condition.now) }
{
    let (contrary, behind) = bare(condition);
    match behind {
        Expr::Compare(comparison, _, _) => is_opposed(meant(contrary, *comparison), test),
        _ => contrary,
    }
}

/// How many instructions the code of what is asked for a condition has.
pub fn asked_size(setting: &Setting<'_>, test: TestKind, condition: &Expr) -> u32
    requires { expression_size (setting_of setting.now) (asked test (expression_of condition.now)) < 2 ^ 32 }
    ensures { result ≡ expression_size (setting_of setting.now) (asked test (expression_of condition.now)) }
{
    let (contrary, behind) = bare(condition);
    match behind {
        Expr::Compare(comparison, left, right) => {
            let asked = asked_comparison(meant(contrary, *comparison), test);
            let left = expression_size(setting, left);
            let right = expression_size(setting, right);
            left.size + right.size + comparison_size(asked)
        }
        _ => expression_size(setting, behind).size,
    }
}
