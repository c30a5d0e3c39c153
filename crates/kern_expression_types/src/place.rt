// Where a statement stands, and what expressions give.

use kern_calls::ValueType;
use kern_syntax::DeclaredType;

/// Where a statement stands within its function.
#[derive(Clone, Copy, Debug, PartialEq, Eq)]
pub struct Place {
    /// The line that a fault has.
    pub line: u32,
    /// The type of the function's result, if it has one.
    pub result: Option<DeclaredType>,
    /// Whether `break` and `continue` may stand here.
    pub in_loop: bool,
    /// Whether `return` may stand here.
    pub may_return: bool,
    /// Whether this is inside a record block.
    pub in_record: bool,
}

/// What an argument or an expression gives.
#[derive(Clone, Copy, Debug, PartialEq, Eq)]
pub enum Given {
    /// A quoted text.
    Text,
    /// Nothing: a call without a value.
    Nothing,
    /// A value of a type.
    Typed(ValueType),
}
