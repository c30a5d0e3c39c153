// The faults of the checker.

/// The kinds of a fault. The rules are this project's own; `docs/LANGUAGE.md` says where each comes.
#[derive(Clone, Copy, Debug, PartialEq, Eq)]
pub enum TypeKind {
    /// A function's, parameter's or variable's name that is taken.
    Name,
    /// A 257th function, a ninth parameter, a 65th name, or an array of none or more than 512 elements.
    Size,
    /// A name that nothing before it in the text has.
    Unknown,
    /// A method that an object hasn't.
    Method,
    /// A wrong number of arguments, or a `return` with or without a value against the header.
    Arity,
    /// An int64 where an int32 is wanted.
    Width,
    /// A condition, or an operand of `and`, `or` and `not`, that isn't a bool.
    NotBool,
    /// Any other mismatch of types. It is printed as `Type`.
    Mismatch,
    /// A `break`, `continue` or `return` that may not leave its block.
    BlockExit,
    /// A record block inside a record block.
    NestedRecord,
    /// Inside a record block, a live call or a call of a function that isn't plain.
    LiveInRecord,
    /// No function `main` without parameters.
    NoMain,
}

/// The first fault of a program in the order of evaluation.
#[derive(Clone, Copy, Debug, PartialEq, Eq)]
pub struct TypeFault {
    /// The line of its statement, branch or header, from 1.
    pub line: u32,
    pub kind: TypeKind,
}
