// Statements.

use crate::{Expr, Identifier};
use rtio_types::Name;

/// The statements of a block, in order.
#[cycle(statement)]
#[derive(Drop)]
pub struct Block {
    pub statements: Vec<Stmt>,
}

/// A statement with the line of its first token, from 1.
#[cycle(statement)]
#[derive(Drop)]
pub struct Stmt {
    pub line: u32,
    pub kind: StmtKind,
}

/// What is assigned to: a name, or an element of an array with its index.
#[derive(Drop)]
pub enum Target {
    Variable(Identifier),
    Element(Identifier, Expr),
}

/// The operator of an augmented assignment, `+=` or `-=`.
#[derive(Clone, Copy, Debug, PartialEq, Eq)]
pub enum Augment {
    Add,
    Subtract,
}

/// The forms of a statement, one for each alternative of the grammar.
#[cycle(statement)]
#[derive(Drop)]
pub enum StmtKind {
    Pass,
    Break,
    Continue,
    Return(Option<Expr>),
    /// An expression that stands alone.
    Evaluate(Expr),
    Assign(Target, Expr),
    Augmented(Target, Augment, Expr),
    /// `name = [value] * length`.
    ArrayRepeat(Identifier, Expr, u64),
    /// `name = [value, value, ..]`.
    ArrayList(Identifier, Vec<Expr>),
    /// The first branch, the `elif` branches, and the `else` if there is one.
    If(Expr, Block, Vec<Elif>, Option<Block>),
    While(Expr, Block),
    /// `for name in range(to)`.
    ForTo(Identifier, Expr, Block),
    /// `for name in range(from, to)`.
    ForFromTo(Identifier, Expr, Expr, Block),
    /// `with parallel`: each statement starts at the cursor that the block started with.
    Parallel(Block),
    /// `with sequential`: one statement after another.
    Sequential(Block),
    /// `with core_dma.record(name)`: the outputs are kept and not put out.
    Record(Name, Block),
    Try(Block, Vec<Handler>),
}

/// An `elif` branch with its line.
#[cycle(statement)]
#[derive(Drop)]
pub struct Elif {
    pub line: u32,
    pub condition: Expr,
    pub body: Block,
}

/// An `except` branch with its line and the name of its exception.
#[cycle(statement)]
#[derive(Drop)]
pub struct Handler {
    pub line: u32,
    pub exception: Identifier,
    pub body: Block,
}
