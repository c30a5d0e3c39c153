// The types of expressions that are well typed.

ghost use Rattle.std.specs.Prelude.{◌≡◌};
ghost use Rattle.kern_syntax.specs.TreeOf.{expression_of};
ghost use Rattle.kern_calls.specs.Types.{call_type, type_of};
ghost use Rattle.kern_names.specs.ScopeOf.{program_of, scope_of};

use crate::functions::Functions;
use crate::scope::Scope;
use kern_calls::{
    ValueType, binary_type, builtin_named, literal_type, method_named, method_type, result_type,
};
use kern_syntax::Expr;

/// The type of an expression, if it is well typed.
#[cycle(types)]
pub fn type_of(scope: &Scope<'_>, e: &Expr) -> ValueType
    ensures { result ≡ type_of (scope_of scope.now) (expression_of e.now) }
{
    match e {
        Expr::Integer(value) => literal_type(*value),
        Expr::Variable(name) => type_of_name(scope, name.bytes()),
        Expr::Index(_, _) => ValueType::Int64,
        Expr::Group(inner) | Expr::Unary(_, inner) => type_of(scope, inner),
        Expr::Binary(operator, left, right) => {
            let left = type_of(scope, left);
            let right = type_of(scope, right);
            binary_type(*operator, left, right)
        }
        Expr::True
        | Expr::False
        | Expr::Compare(_, _, _)
        | Expr::Not(_)
        | Expr::And(_, _)
        | Expr::Or(_, _) => ValueType::Bool,
        Expr::Call(function, _) => call_type(&scope.functions, function.bytes()),
        Expr::Method(object, name, _) => {
            let method = method_named(object.bytes(), name.bytes());
            method_type(method)
        }
    }
}

ghost use Rattle.std.specs.Prelude.{unwrap_or};
ghost use Rattle.kern_calls.specs.Calls.{look_up};
ghost use Rattle.kern_calls.specs.declared.types.ValueType.TheVariants.{Int64};

/// The type of a name, int64 where it isn't there.
pub fn type_of_name(scope: &Scope<'_>, name: &[u8]) -> ValueType
    ensures { result ≡ unwrap_or (look_up (scope_of scope.now).names name.now) Int64 }
{
    match scope.names.kind(name) {
        Some(kind) => kind,
        None => ValueType::Int64,
    }
}

ghost use Rattle.kern_calls.specs.Calls.{builtin_named};

// The type that a call gives by name, of a function of the language or else of the program.
fn call_type(functions: &Functions<'_>, name: &[u8]) -> ValueType
    ensures { result ≡ call_type (program_of functions.now) name.now (builtin_named name.now) }
{
    match builtin_named(name) {
        Some(builtin) => result_type(builtin.result()),
        None => result_type(functions.result(name)),
    }
}
