// What calls take.

/// What a parameter takes.
#[derive(Clone, Copy, Debug, PartialEq, Eq)]
pub enum Wanted {
    Int32,
    /// An int64, or an int32.
    Int64,
    Bool,
    Text,
    Array,
    /// An int64, an int32 or an array.
    Int64OrArray,
}
