// How many instructions the code of an expression has, so that jumps over it are known before it is put.

ghost use Rattle.std.specs.Prelude.{◌≡◌, ◌+◌, ◌<◌, ◌^◌};
ghost use Rattle.kern_calls.specs.Calls.{builtin_named};
ghost use Rattle.kern_calls.specs.Types.{call_type, type_of};
ghost use Rattle.kern_syntax.specs.Tree.{no_more};
ghost use Rattle.kern_syntax.specs.TreeOf.{expression_of, argument_of, arguments_of};
ghost use Rattle.code_forms.specs.Operations.{call_has_value};
ghost use Rattle.code_forms.specs.Sizes.{arguments_size, call_size, expression_size, unless};
ghost use Rattle.core_code_names.specs.SettingOf.{setting_of};

use crate::pieces::{negated, unless, wrapped_type};
use core_code_names::Setting;
use core_code_operations::{
    Callee, callee_of, comparison_size, method_has_value, method_size, wrapped_size,
};
use kern_calls::{ValueType, binary_type, literal_type, method_named, method_type};
use kern_syntax::{Argument, Expr};

/// How long the code of an expression is, and its type.
#[derive(Clone, Copy, Debug, PartialEq, Eq)]
pub struct Measure {
    /// How many instructions its code has.
    pub size: u32,
    /// The type of its value.
    pub kind: ValueType,
}

/// How many instructions the code of an expression has, with its type.
#[cycle(expressions)]
pub fn expression_size(setting: &Setting<'_>, e: &Expr) -> Measure
    requires { expression_size (setting_of setting.now) (expression_of e.now) < 2 ^ 32 }
    ensures size { result.size ≡ expression_size (setting_of setting.now) (expression_of e.now) }
    ensures kind { result.kind ≡ type_of (setting_of setting.now).scope (expression_of e.now) }
{
    match e {
        Expr::Integer(value) => Measure {
            size: 1,
            kind: literal_type(*value),
        },
        Expr::True | Expr::False => Measure {
            size: 1,
            kind: ValueType::Bool,
        },
        Expr::Variable(name) => Measure {
            size: 1,
            kind: setting.type_of_name(name.bytes()),
        },
        Expr::Index(_, index) => Measure {
            size: expression_size(setting, index).size + 1,
            kind: ValueType::Int64,
        },
        Expr::Group(inner) => expression_size(setting, inner),
        Expr::Unary(operator, operand) => {
            let Measure { size, kind } = expression_size(setting, operand);
            let size = match negated(*operator, operand) {
                Some(_) => 1,
                None => size + wrapped_size(kind),
            };
            Measure { size, kind }
        }
        Expr::Binary(operator, left, right) => {
            let first = expression_size(setting, left);
            let second = expression_size(setting, right);
            let kind = binary_type(*operator, first.kind, second.kind);
            let wrapped = wrapped_type(*operator, left, right, kind);
            Measure {
                size: first.size + second.size + wrapped_size(wrapped),
                kind,
            }
        }
        Expr::Compare(comparison, left, right) => {
            let left = expression_size(setting, left);
            let right = expression_size(setting, right);
            Measure {
                size: left.size + right.size + comparison_size(*comparison),
                kind: ValueType::Bool,
            }
        }
        Expr::Not(operand) => Measure {
            size: expression_size(setting, operand).size + 2,
            kind: ValueType::Bool,
        },
        Expr::And(left, right) | Expr::Or(left, right) => {
            let left = expression_size(setting, left);
            let right = expression_size(setting, right);
            Measure {
                size: left.size + right.size + 3,
                kind: ValueType::Bool,
            }
        }
        Expr::Call(name, arguments) => {
            let (size, callee) = call_size(setting, name.bytes(), arguments);
            Measure {
                size: size + unless(callee.has_value),
                kind: callee.kind,
            }
        }
        Expr::Method(object, name, arguments) => {
            let method = method_named(object.bytes(), name.bytes());
            let size = arguments_size(setting, arguments) + method_size(method);
            Measure {
                size: size + unless(method_has_value(method)),
                kind: method_type(method),
            }
        }
    }
}

/// How many instructions a call by name has, which leaves a value if it has one, and what is called.
#[cycle(expressions)]
pub fn call_size(setting: &Setting<'_>, name: &[u8], arguments: &[Argument]) -> (u32, Callee)
    requires { call_size (setting_of setting.now) name.now (arguments_of arguments.now) < 2 ^ 32 }
    ensures size { result.0 ≡ call_size (setting_of setting.now) name.now (arguments_of arguments.now) }
    ensures has_value { result.1.has_value ≡ call_has_value (setting_of setting.now) name.now (builtin_named name.now) }
    ensures kind { result.1.kind ≡ call_type (setting_of setting.now).scope.program name.now (builtin_named name.now) }
{
    let callee = callee_of(setting, name, arguments);
    if callee.takes_numbers {
        (arguments_size(setting, arguments) + callee.size(), callee)
    } else {
        (callee.size(), callee)
    }
}

/// How many instructions the arguments of a call have.
#[cycle(expressions)]
pub fn arguments_size(setting: &Setting<'_>, arguments: &[Argument]) -> u32
    requires { arguments_size (setting_of setting.now) (arguments_of arguments.now) < 2 ^ 32 }
    ensures { result ≡ arguments_size (setting_of setting.now) (arguments_of arguments.now) }
{
    let mut size = 0u32;
    for argument in arguments.iter() {
        size += argument_size(setting, argument);
    }
    size
}

#[cycle(expressions)]
fn argument_size(setting: &Setting<'_>, argument: &Argument) -> u32
    requires { arguments_size (setting_of setting.now) (argument_of argument.now no_more) < 2 ^ 32 }
    ensures { result ≡ arguments_size (setting_of setting.now) (argument_of argument.now no_more) }
{
    match argument {
        Argument::Value(e) => expression_size(setting, e).size,
        Argument::Text(_) => 0,
    }
}
