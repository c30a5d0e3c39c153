// Expressions and their parts, as far as there was memory for them.
//
// Where memory is refused to a part, reading goes on without it, so that a wrong token further on
// is found all the same: that part is lost, and with it what it belongs to.

ghost use Rattle.std.specs.Prelude.{◌≡◌};
ghost use Rattle.kern_expressions.specs.Kept.{AddsItem, IsNamed, KeptAs, ReadAs, item_of};
ghost use Rattle.kern_grammar.specs.Operators.{join};
ghost use Rattle.kern_grammar.specs.Reading.{value};
ghost use Rattle.kern_lexer.specs.Bytes.{Bytes};
ghost use Rattle.kern_syntax.specs.Tree.{Arguments, Expression, call, compare, element, group, method, negation, unary, variable};
ghost use Rattle.kern_syntax.specs.TreeOf.{arguments_of, expression_of};

use kern_grammar::Joiner;
use kern_syntax::{Argument, Comparison, Expr, Identifier, UnaryOperator};
use std::alloc::Global;

/// As much of an expression as what may follow it depends on: a statement that begins with a name
/// or an element of an array may go on with an assignment to it.
#[derive(Clone, Copy)]
pub enum Form {
    /// A name alone.
    Name,
    /// An element of an array.
    Element,
    /// Any other expression.
    Other,
}

/// An expression that was read.
#[derive(Drop)]
pub enum ReadExpr {
    /// Its tree.
    Kept(Expr),
    /// Its form alone: memory was refused to its tree.
    Lost(Form),
}

impl ReadExpr {
    /// The tree, unless it was lost.
    pub fn tree(self) -> Option<Expr>
        ensures { (e : Expression) → ReadAs self e → KeptAs expression_of result e }
    {
        match self {
            ReadExpr::Kept(tree) => Some(tree),
            ReadExpr::Lost(_) => None,
        }
    }
}

// The tree in a box.
#[inline(always)]
fn boxed(alloc: Global, e: ReadExpr) -> Option<Box<Expr>>
    ensures { (tree : Expression) → ReadAs e tree → KeptAs (λ b. expression_of b.value) result tree }
{
    match e {
        ReadExpr::Kept(tree) => Box::new(alloc, tree).ok(),
        ReadExpr::Lost(_) => None,
    }
}

/// A name, unless memory is refused.
#[inline(always)]
pub fn identifier(alloc: Global, bytes: &[u8]) -> Option<Identifier>
    ensures { IsNamed result bytes.now }
{
    match Vec::from_slice(alloc, bytes) {
        Ok(bytes) => Some(Identifier::of(bytes)),
        Err(_) => None,
    }
}

/// One more item behind others, unless one of them was lost or memory is refused.
#[inline(always)]
pub fn pushed<T: Drop>(items: Option<Vec<T>>, item: Option<T>) -> Option<Vec<T>>
    ensures { AddsItem (λ v. v.items) items item result }
{
    let (Some(mut items), Some(item)) = (items, item) else {
        return None;
    };
    match items.push(item) {
        Ok(()) => Some(items),
        Err(_) => None,
    }
}

/// A name as an expression.
#[inline(always)]
pub fn named(name: Option<Identifier>) -> ReadExpr
    ensures { (x : Bytes) → IsNamed name x → ReadAs result (variable x) }
{
    match name {
        Some(name) => ReadExpr::Kept(Expr::Variable(name)),
        None => ReadExpr::Lost(Form::Name),
    }
}

/// An element of an array.
#[inline(always)]
pub fn indexed(alloc: Global, array: Option<Identifier>, index: ReadExpr) -> ReadExpr
    ensures { (x : Bytes) (i : Expression) → IsNamed array x → ReadAs index i → ReadAs result (element x i) }
{
    match (array, boxed(alloc, index)) {
        (Some(array), Some(index)) => ReadExpr::Kept(Expr::Index(array, index)),
        _ => ReadExpr::Lost(Form::Element),
    }
}

/// An expression in parentheses.
#[inline(always)]
pub fn grouped(alloc: Global, e: ReadExpr) -> ReadExpr
    ensures { (tree : Expression) → ReadAs e tree → ReadAs result (group tree) }
{
    match boxed(alloc, e) {
        Some(e) => ReadExpr::Kept(Expr::Group(e)),
        None => ReadExpr::Lost(Form::Other),
    }
}

/// Two operands with an operator between them.
#[inline(always)]
pub fn joined(alloc: Global, joiner: Joiner, left: ReadExpr, right: ReadExpr) -> ReadExpr
    ensures { (a b : Expression) → ReadAs left a → ReadAs right b → ReadAs result (join joiner a b) }
{
    match (boxed(alloc, left), boxed(alloc, right)) {
        (Some(left), Some(right)) => ReadExpr::Kept(match joiner {
            Joiner::Binary(op) => Expr::Binary(op, left, right),
            Joiner::And => Expr::And(left, right),
            Joiner::Or => Expr::Or(left, right),
        }),
        _ => ReadExpr::Lost(Form::Other),
    }
}

/// Two operands with a comparison between them.
#[inline(always)]
pub fn compared(alloc: Global, op: Comparison, left: ReadExpr, right: ReadExpr) -> ReadExpr
    ensures { (a b : Expression) → ReadAs left a → ReadAs right b → ReadAs result (compare op a b) }
{
    match (boxed(alloc, left), boxed(alloc, right)) {
        (Some(left), Some(right)) => ReadExpr::Kept(Expr::Compare(op, left, right)),
        _ => ReadExpr::Lost(Form::Other),
    }
}

/// A prefix before its operand.
#[inline(always)]
pub fn with_prefix(alloc: Global, op: UnaryOperator, operand: ReadExpr) -> ReadExpr
    ensures { (e : Expression) → ReadAs operand e → ReadAs result (unary op e) }
{
    match boxed(alloc, operand) {
        Some(operand) => ReadExpr::Kept(Expr::Unary(op, operand)),
        None => ReadExpr::Lost(Form::Other),
    }
}

/// `not` before its operand.
#[inline(always)]
pub fn negated(alloc: Global, operand: ReadExpr) -> ReadExpr
    ensures { (e : Expression) → ReadAs operand e → ReadAs result (negation e) }
{
    match boxed(alloc, operand) {
        Some(operand) => ReadExpr::Kept(Expr::Not(operand)),
        None => ReadExpr::Lost(Form::Other),
    }
}

/// A call of a function.
#[inline(always)]
pub fn called(function: Option<Identifier>, arguments: Option<Vec<Argument>>) -> ReadExpr
    ensures { (f : Bytes) (args : Arguments) → IsNamed function f →
        KeptAs (λ v. arguments_of v.items) arguments args → ReadAs result (call f args) }
{
    match (function, arguments) {
        (Some(function), Some(arguments)) => ReadExpr::Kept(Expr::Call(function, arguments)),
        _ => ReadExpr::Lost(Form::Other),
    }
}

/// A call of an object's method.
#[inline(always)]
pub fn method_called(
    object: Option<Identifier>,
    name: Option<Identifier>,
    arguments: Option<Vec<Argument>>,
) -> ReadExpr
    ensures { (o m : Bytes) (args : Arguments) → IsNamed object o → IsNamed name m →
        KeptAs (λ v. arguments_of v.items) arguments args → ReadAs result (method o m args) }
{
    match (object, name, arguments) {
        (Some(object), Some(name), Some(arguments)) => {
            ReadExpr::Kept(Expr::Method(object, name, arguments))
        }
        _ => ReadExpr::Lost(Form::Other),
    }
}

/// An expression as an argument.
#[inline(always)]
pub fn argument(e: ReadExpr) -> Option<Argument>
    ensures { (tree : Expression) → ReadAs e tree → KeptAs item_of result (value tree) }
{
    Some(Argument::Value(e.tree()?))
}
