// Blocks and the statements that have blocks, as far as there was memory for them.

ghost use Rattle.std.specs.Prelude.{◌≡◌, List, Option, Some, map, option_map};
ghost use Rattle.kern_blocks.specs.BlockSteps.{ConditionalTree, conditional_of, elif_line, except_line, with_statement};
ghost use Rattle.kern_expressions.specs.Kept.{IsNamed, KeptAs, ReadAs};
ghost use Rattle.kern_grammar.specs.BlockPlans.{ElifLine, ExceptLine, block_of_lines, handlers_of_lines, otherwise_of};
ghost use Rattle.kern_grammar.specs.SimplePlans.{Line};
ghost use Rattle.kern_lexer.specs.Bytes.{Bytes};
ghost use Rattle.kern_statements.specs.Headers.{BoundTrees, bounds_of};
ghost use Rattle.kern_statements.specs.LineSteps.{line_of_statement, on, statement_of};
ghost use Rattle.kern_syntax.specs.Tree as tree;
ghost use Rattle.kern_syntax.specs.TreeOf.{block_of, expression_of};

use kern_expressions::ReadExpr;
use kern_statements::{Bounds, WithItem};
use kern_syntax::{Block, Elif, Expr, Handler, Identifier, Stmt, StmtKind};

/// A condition with the block that it decides on.
#[derive(Drop)]
pub struct Conditional {
    pub condition: Expr,
    pub body: Block,
}

/// A condition and its block.
pub fn under_condition(condition: ReadExpr, body: Option<Block>) -> Option<Conditional>
    ensures { (c : tree.Expression) (b : tree.Block) → ReadAs condition c → KeptAs block_of body b →
        KeptAs conditional_of result (c, b) }
{
    let condition = condition.tree()?;
    let body = body?;
    Some(Conditional { condition, body })
}

// A block of these statements.
fn block_of_statements(statements: Vec<Stmt>) -> Block
    ensures { block_of result ≡ block_of_lines (map line_of_statement statements.items) }
{
    Block { statements }
}

/// A block of these statements, unless one of them was lost.
pub fn block_with(statements: Option<Vec<Stmt>>) -> Option<Block>
    ensures { (xs : List Line) → KeptAs (λ v. map line_of_statement v.items) statements xs →
        KeptAs block_of result (block_of_lines xs) }
{
    Some(block_of_statements(statements?))
}

/// A `while` that begins on a line.
pub fn while_statement(line: u32, conditional: Option<Conditional>) -> Option<Stmt>
    ensures { (x : ConditionalTree) → KeptAs conditional_of conditional x →
        KeptAs line_of_statement result (on line (tree.while_do x.0 x.1)) }
{
    let Conditional { condition, body } = conditional?;
    let kind = StmtKind::While(condition, body);
    Some(Stmt { line, kind })
}

// A `for` with one bound or two.
fn for_kind(name: Identifier, bounds: Bounds, body: Block) -> StmtKind
    ensures { statement_of result ≡ tree.for_range name (bounds_of bounds).0 (bounds_of bounds).1 (block_of body) }
{
    let Bounds { from, to } = bounds;
    match from {
        None => StmtKind::ForTo(name, to, body),
        Some(from) => StmtKind::ForFromTo(name, from, to, body),
    }
}

/// A `for` that begins on a line.
pub fn for_statement(
    line: u32,
    name: Option<Identifier>,
    bounds: Option<Bounds>,
    body: Option<Block>,
) -> Option<Stmt>
    ensures { (x : Bytes) (ends : BoundTrees) (b : tree.Block) → IsNamed name x → KeptAs bounds_of bounds ends →
        KeptAs block_of body b → KeptAs line_of_statement result (on line (tree.for_range x ends.0 ends.1 b)) }
{
    let kind = for_kind(name?, bounds?, body?);
    Some(Stmt { line, kind })
}

// A `with` by its item.
fn with_kind(item: WithItem, body: Block) -> StmtKind
    ensures { statement_of result ≡ with_statement item (block_of body) }
{
    match item {
        WithItem::Parallel => StmtKind::Parallel(body),
        WithItem::Sequential => StmtKind::Sequential(body),
        WithItem::Record(name) => StmtKind::Record(name, body),
    }
}

/// A `with` that begins on a line.
pub fn with_statement(line: u32, item: WithItem, body: Option<Block>) -> Option<Stmt>
    ensures { (b : tree.Block) → KeptAs block_of body b →
        KeptAs line_of_statement result (on line (with_statement item b)) }
{
    let kind = with_kind(item, body?);
    Some(Stmt { line, kind })
}

/// An `elif` branch that begins on a line.
pub fn elif_branch(line: u32, conditional: Option<Conditional>) -> Option<Elif>
    ensures { (x : ConditionalTree) → KeptAs conditional_of conditional x → KeptAs elif_line result (line, x.0, x.1) }
{
    let Conditional { condition, body } = conditional?;
    Some(Elif {
        line,
        condition,
        body,
    })
}

/// The block of an `else`.
pub fn else_branch(body: Option<Block>) -> Option<Option<Block>>
    ensures { (b : tree.Block) → KeptAs block_of body b → KeptAs (option_map block_of) result (Some b) }
{
    Some(Some(body?))
}

// An `if` with its branches.
fn if_kind(condition: Expr, body: Block, branches: Vec<Elif>, last: Option<Block>) -> StmtKind
    ensures { statement_of result ≡ tree.if_then (expression_of condition) (block_of body)
        (otherwise_of (map elif_line branches.items) (option_map block_of last)) }
{
    StmtKind::If(condition, body, branches, last)
}

/// An `if` that begins on a line, with its branches.
pub fn if_statement(
    line: u32,
    conditional: Option<Conditional>,
    branches: Option<Vec<Elif>>,
    last: Option<Option<Block>>,
) -> Option<Stmt>
    ensures { (x : ConditionalTree) (more : List ElifLine) (end : Option tree.Block) →
        KeptAs conditional_of conditional x → KeptAs (λ v. map elif_line v.items) branches more →
        KeptAs (option_map block_of) last end →
        KeptAs line_of_statement result (on line (tree.if_then x.0 x.1 (otherwise_of more end))) }
{
    let Conditional { condition, body } = conditional?;
    let kind = if_kind(condition, body, branches?, last?);
    Some(Stmt { line, kind })
}

/// An `except` branch that begins on a line.
pub fn handler_branch(
    line: u32,
    exception: Option<Identifier>,
    body: Option<Block>,
) -> Option<Handler>
    ensures { (x : Bytes) (b : tree.Block) → IsNamed exception x → KeptAs block_of body b →
        KeptAs except_line result (line, x, b) }
{
    let exception = exception?;
    let body = body?;
    Some(Handler {
        line,
        exception,
        body,
    })
}

// A `try` with its branches.
fn try_kind(body: Block, handlers: Vec<Handler>) -> StmtKind
    ensures { statement_of result ≡ tree.try_do (block_of body) (handlers_of_lines (map except_line handlers.items)) }
{
    StmtKind::Try(body, handlers)
}

/// A `try` that begins on a line, with its branches.
pub fn try_statement(line: u32, body: Option<Block>, handlers: Option<Vec<Handler>>) -> Option<Stmt>
    ensures { (b : tree.Block) (xs : List ExceptLine) → KeptAs block_of body b →
        KeptAs (λ v. map except_line v.items) handlers xs →
        KeptAs line_of_statement result (on line (tree.try_do b (handlers_of_lines xs))) }
{
    let kind = try_kind(body?, handlers?);
    Some(Stmt { line, kind })
}
