// Operators that stand in rows.

use kern_syntax::BinaryOperator;

/// An operator that may be repeated in a row, as in `a + b - c`.
#[derive(Clone, Copy, PartialEq, Eq, Debug, Drop)]
pub enum Joiner {
    Binary(BinaryOperator),
    And,
    Or,
}
