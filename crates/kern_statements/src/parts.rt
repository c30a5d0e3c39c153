// Statements on one line and their parts, as far as there was memory for them.

ghost use Rattle.std.specs.Prelude.{◌≡◌, ℕ, ◌∷◌, List, None, Some, map};
ghost use Rattle.kern_expressions.specs.Kept.{IsNamed, KeptAs, ReadAs};
ghost use Rattle.kern_grammar.specs.Views.{Place, place_of};
ghost use Rattle.kern_lexer.specs.Bytes.{Bytes};
ghost use Rattle.kern_statements.specs.LineSteps.{HasPlace, IsPlace, assign_at, augment_at, line_of_statement, on, place_of_target};
ghost use Rattle.kern_syntax.specs.Tree.{Expression, assign_list, assign_repeated, evaluate, return};
ghost use Rattle.kern_syntax.specs.TreeOf.{expression_of};

use kern_expressions::{Form, ReadExpr};
use kern_syntax::{Augment, Expr, Identifier, Stmt, StmtKind, Target};

/// What a statement assigns to.
#[derive(Drop)]
pub enum ReadPlace {
    /// A name, unless it was lost.
    Name(Option<Identifier>),
    /// An element of an array, unless it was lost.
    Element(Option<Target>),
}

impl ReadPlace {
    fn target(self) -> Option<Target>
        ensures { (place : Place) → IsPlace self place → KeptAs place_of_target result place }
    {
        match self {
            ReadPlace::Name(Some(name)) => Some(Target::Variable(name)),
            ReadPlace::Name(None) => None,
            ReadPlace::Element(target) => target,
        }
    }
}

/// What an expression assigns to, if it is a name or an element of an array.
pub fn place_of(e: ReadExpr) -> Option<ReadPlace>
    ensures { (tree : Expression) → ReadAs e tree → HasPlace result (place_of tree) }
{
    match e {
        ReadExpr::Kept(Expr::Variable(name)) => Some(ReadPlace::Name(Some(name))),
        ReadExpr::Kept(Expr::Index(array, index)) => Some(ReadPlace::Element(Some(Target::Element(
            array,
            Box::into_inner(index),
        )))),
        ReadExpr::Kept(_) => None,
        ReadExpr::Lost(Form::Name) => Some(ReadPlace::Name(None)),
        ReadExpr::Lost(Form::Element) => Some(ReadPlace::Element(None)),
        ReadExpr::Lost(Form::Other) => None,
    }
}

/// An assignment of a value.
pub fn assigned(line: u32, place: ReadPlace, value: ReadExpr) -> Option<Stmt>
    ensures { (p : Place) (e : Expression) → IsPlace place p → ReadAs value e →
        KeptAs line_of_statement result (on line (assign_at p e)) }
{
    let kind = StmtKind::Assign(place.target()?, value.tree()?);
    Some(Stmt { line, kind })
}

/// An assignment by `+=` or `-=`.
pub fn augmented(line: u32, place: ReadPlace, op: Augment, value: ReadExpr) -> Option<Stmt>
    ensures { (p : Place) (e : Expression) → IsPlace place p → ReadAs value e →
        KeptAs line_of_statement result (on line (augment_at p op e)) }
{
    let kind = StmtKind::Augmented(place.target()?, op, value.tree()?);
    Some(Stmt { line, kind })
}

/// An expression as a statement.
#[inline(always)]
pub fn evaluated(line: u32, e: ReadExpr) -> Option<Stmt>
    ensures { (tree : Expression) → ReadAs e tree → KeptAs line_of_statement result (on line (evaluate tree)) }
{
    let kind = StmtKind::Evaluate(e.tree()?);
    Some(Stmt { line, kind })
}

/// A `return` with a value.
pub fn returned(line: u32, value: ReadExpr) -> Option<Stmt>
    ensures { (e : Expression) → ReadAs value e → KeptAs line_of_statement result (on line (return (Some e))) }
{
    let kind = StmtKind::Return(Some(value.tree()?));
    Some(Stmt { line, kind })
}

/// An array of one repeated element.
pub fn repeated(line: u32, name: Option<Identifier>, element: ReadExpr, length: u64) -> Option<Stmt>
    ensures { (x : Bytes) (e : Expression) → IsNamed name x → ReadAs element e →
        KeptAs line_of_statement result (on line (assign_repeated x e length)) }
{
    let kind = StmtKind::ArrayRepeat(name?, element.tree()?, length);
    Some(Stmt { line, kind })
}

/// An array of these elements, of which there is a first.
pub fn listed(
    line: u32,
    name: Option<Identifier>,
    first: ReadExpr,
    more: Option<Vec<Expr>>,
) -> Option<Stmt>
    ensures { (x : Bytes) (e : Expression) (es : List Expression) → IsNamed name x → ReadAs first e →
        KeptAs (λ v. map expression_of v.items) more es →
        KeptAs line_of_statement result (on line (assign_list x (e ∷ es))) }
{
    let mut elements = more?;
    elements.insert(0, first.tree()?).ok()?;
    let kind = StmtKind::ArrayList(name?, elements);
    Some(Stmt { line, kind })
}
