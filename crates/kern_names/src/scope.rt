// What the types of a function's expressions rest on.

use crate::functions::Functions;
use crate::names::Names;

/// What the types of a function's expressions rest on. Contracts see it by `scope_of`.
#[derive(Clone, Copy)]
pub struct Scope<'a> {
    /// The functions of the program.
    pub functions: Functions<'a>,
    /// The names of the function with their types.
    pub names: &'a Names,
}
