// How many instructions the code of a statement without a block has.

ghost use Rattle.std.specs.Prelude.{◌≡◌, ◌+◌, ◌<◌, ◌^◌};
ghost use Rattle.kern_syntax.specs.TreeOf.{expression_of, statement_of};
ghost use Rattle.code_forms.specs.Sizes.{return_size, stored_size};
ghost use Rattle.core_code_names.specs.SettingOf.{setting_of};
ghost use Rattle.core_code_sizes.specs.Parts.{simple_size};

use crate::effects::effect_size;
use crate::expressions::expression_size;
use core_code_names::Setting;
use core_code_operations::wrapped_size;
use kern_syntax::{Expr, StmtKind, Target};

/// How many instructions the code of a statement without a block has, under so many handlers, of which so many stood before
/// the enclosing loop; 0 for a statement with a block.
pub fn simple_size(setting: &Setting<'_>, tries: u32, kept: u32, statement: &StmtKind) -> u32
    requires { tries + simple_size (setting_of setting.now) tries kept (statement_of statement.now) < 2 ^ 32 }
    ensures { result ≡ simple_size (setting_of setting.now) tries kept (statement_of statement.now) }
{
    match statement {
        StmtKind::Break | StmtKind::Continue => tries.saturating_sub(kept) + 1,
        StmtKind::Return(value) => return_size(setting, value) + tries + 1,
        StmtKind::Evaluate(e) => effect_size(setting, e),
        StmtKind::Assign(Target::Variable(_), e) | StmtKind::ArrayRepeat(_, e, _) => {
            expression_size(setting, e).size + 1
        }
        StmtKind::Assign(Target::Element(_, index), e) => {
            expression_size(setting, e).size + expression_size(setting, index).size + 1
        }
        StmtKind::Augmented(Target::Variable(name), _, e) => {
            let kind = setting.type_of_name(name.bytes());
            expression_size(setting, e).size + wrapped_size(kind) + 2
        }
        StmtKind::Augmented(Target::Element(_, index), _, e) => {
            expression_size(setting, index).size + expression_size(setting, e).size + 6
        }
        StmtKind::ArrayList(_, elements) => elements_size(setting, elements),
        _ => 0,
    }
}

ghost use Rattle.std.specs.Prelude.{option_map};

// The value of a `return`.
fn return_size(setting: &Setting<'_>, value: &Option<Expr>) -> u32
    requires { return_size (setting_of setting.now) (option_map expression_of value.now) < 2 ^ 32 }
    ensures { result ≡ return_size (setting_of setting.now) (option_map expression_of value.now) }
{
    match value {
        Some(e) => expression_size(setting, e).size + u32::from(!setting.value),
        None => u32::from(setting.value),
    }
}

ghost use Rattle.std.specs.Prelude.{◌*◌, ◌-◌, length, map};

// The elements of an array: each is stored, and all but the last are later moved to their places by two instructions.
fn elements_size(setting: &Setting<'_>, elements: &[Expr]) -> u32
    requires { stored_size (setting_of setting.now) (map expression_of elements.now) + 2 * (length (map expression_of elements.now) - 1) < 2 ^ 32 }
    ensures { result ≡ stored_size (setting_of setting.now) (map expression_of elements.now) + 2 * (length (map expression_of elements.now) - 1) }
{
    let mut size = 0;
    for element in elements.iter() {
        size += expression_size(setting, element).size + 1;
    }
    size + 2 * elements.len().saturating_sub(1) as u32
}
