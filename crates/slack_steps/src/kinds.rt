// The types of names, for which the names of a function are gone through: there are few, and a hash of one takes longer.

ghost use Rattle.std.specs.Prelude.{◌≡◌, true};
ghost use Rattle.kern_syntax.specs.Tree.{variable};
ghost use Rattle.kern_syntax.specs.TreeOf.{expression_of};
ghost use Rattle.kern_calls.specs.Types.{type_of};
ghost use Rattle.kern_calls.specs.declared.types.ValueType.TheVariants.{Int64};
ghost use Rattle.kern_names.specs.ScopeOf.{scope_of};

use kern_calls::ValueType;
use kern_names::Scope;
use kern_syntax::Expr;
use slack_state::is_same;

/// The type of a name, int64 where it isn't there.
pub fn kind_of_name(scope: &Scope<'_>, name: &[u8]) -> ValueType
    ensures { result ≡ type_of (scope_of scope.now) (variable name.now) }
{
    for place in 0..scope.names.len() {
        let known = scope.names.at(place);
        if is_same(name, known.name) {
            return known.kind;
        }
    }
    ValueType::Int64
}

// Whether a name is an int64.
fn is_long_name(scope: &Scope<'_>, name: &[u8]) -> bool
    ensures { result ≡ true → type_of (scope_of scope.now) (variable name.now) ≡ Int64 }
{
    matches!(kind_of_name(scope, name), ValueType::Int64)
}

/// Whether an expression is seen to be an int64 by the name that it begins with.
pub fn begins_long(scope: &Scope<'_>, e: &Expr) -> bool
    ensures { result ≡ true → type_of (scope_of scope.now) (expression_of e.now) ≡ Int64 }
{
    match e {
        Expr::Variable(x) => is_long_name(scope, x.bytes()),
        Expr::Group(inner) => begins_long(scope, inner),
        Expr::Binary(_, left, _) => begins_long(scope, left),
        _ => false,
    }
}
