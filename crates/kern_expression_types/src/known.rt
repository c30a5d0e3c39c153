// What the text has before a statement.

ghost use Rattle.std.specs.Prelude.{◌≡◌, ◌≤◌, length};
ghost use Rattle.kern_expression_types.specs.FunctionNames.{function_names};

use crate::names::{FunctionNames, first_named, is_among};
use crate::reserved::is_reserved;
use kern_syntax::Function;

/// The functions that a statement may speak of.
#[derive(Clone, Copy)]
pub struct Known<'a> {
    /// All functions of the program.
    pub functions: &'a [Function],
    /// Their names, which no variable has.
    pub all: &'a FunctionNames<'a>,
    /// How many of the first of them may be called: those up to the statement's own.
    pub callable: usize,
    /// The names of those of the earlier ones that are plain.
    pub plain: &'a [&'a [u8]],
    ghost all_named: { all.now ≡ function_names functions.now },
    ghost callable_within: { callable ≤ length functions.now },
}

impl<'a> Known<'a> {
    ghost use Rattle.std.specs.Prelude.{◌≡◌, option_map};
    ghost use Rattle.kern_syntax.specs.TreeOf.{function_of};
    ghost use Rattle.kern_expression_types.specs.Before.{is_in, is_taken};
    ghost use Rattle.kern_expression_types.specs.KnownOf.{functions_of};
    ghost use Rattle.kern_calls.specs.Types.{function_named};

    /// Whether no variable may have a name: it is reserved, or a function of the program has it.
    pub fn is_taken(&self, name: &[u8]) -> bool
        ensures { result ≡ is_taken (functions_of self.now) name.now }
    {
        is_reserved(name) || self.all.contains(name)
    }

    /// Whether an earlier function of a name is plain.
    pub fn is_plain(&self, name: &[u8]) -> bool
        ensures { result ≡ is_in (functions_of self.now).plain name.now }
    {
        is_among(self.plain, name)
    }

    /// The function of a name that may be called.
    pub fn callee(&self, name: &[u8]) -> Option<&'a Function>
        ensures { option_map (λ f. function_of f.now) result ≡ function_named (functions_of self.now).callable name.now }
    {
        let callable = &self.functions[..self.callable];
        first_named(callable, name)
    }
}
