//! The syntax trees of kernels, as ordinary types; contracts speak of them by the plain tree of `specs/Tree`.
#![tactic(auto)]

mod counting;
mod expression;
mod identifier;
mod printing;
mod program;
mod statement;

pub use counting::nodes;
pub use expression::{Argument, BinaryOperator, Comparison, Expr, UnaryOperator};
pub use identifier::Identifier;
pub use printing::print;
pub use program::{DeclaredType, Function, Parameter, ParameterList, Program};
pub use statement::{Augment, Block, Elif, Handler, Stmt, StmtKind, Target};
