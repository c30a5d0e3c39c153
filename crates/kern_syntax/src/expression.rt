// Expressions.

use crate::Identifier;
use rtio_types::Name;

/// The operators that take two integers and give one. Sums and products wrap at the width of their type.
#[derive(Clone, Copy, Debug, PartialEq, Eq)]
pub enum BinaryOperator {
    Add,
    Subtract,
    Multiply,
    /// `//`, which rounds down.
    Divide,
    /// `%`, what is left by `//`.
    Remainder,
    ShiftLeft,
    ShiftRight,
    BitAnd,
    BitXor,
    BitOr,
}

/// The operators that compare two integers, or for `==` and `!=` also two truth values.
#[derive(Clone, Copy, Debug, PartialEq, Eq)]
pub enum Comparison {
    Equal,
    NotEqual,
    Less,
    LessEqual,
    Greater,
    GreaterEqual,
}

/// The operators before an integer.
#[derive(Clone, Copy, Debug, PartialEq, Eq)]
pub enum UnaryOperator {
    Negate,
    Invert,
}

/// An expression, one variant for each alternative of the grammar. Parentheses are kept.
#[cycle(expression)]
#[derive(Drop)]
pub enum Expr {
    /// An integer by its value, below 2^63 in each text.
    Integer(u64),
    True,
    False,
    Variable(Identifier),
    /// An element of an array: `array[index]`.
    Index(Identifier, Box<Expr>),
    /// An expression in parentheses.
    Group(Box<Expr>),
    Unary(UnaryOperator, Box<Expr>),
    Binary(BinaryOperator, Box<Expr>, Box<Expr>),
    Compare(Comparison, Box<Expr>, Box<Expr>),
    Not(Box<Expr>),
    And(Box<Expr>, Box<Expr>),
    Or(Box<Expr>, Box<Expr>),
    /// `function(arguments)`.
    Call(Identifier, Vec<Argument>),
    /// `object.method(arguments)`.
    Method(Identifier, Identifier, Vec<Argument>),
}

/// An argument of a call: a value, or the quoted name of a recording or dataset.
#[cycle(expression)]
#[derive(Drop)]
pub enum Argument {
    Value(Expr),
    Text(Name),
}
