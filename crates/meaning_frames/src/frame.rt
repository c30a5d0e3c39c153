// A function that runs.

ghost use Rattle.kern_names.specs.ScopeOf.{program_of};
ghost use Rattle.meaning_steps.specs.RunnableFacts.{functions-prop};
ghost use Rattle.meaning_steps.specs.RunnableStatements.{AreRunnableFunctions};

use kern_names::Scope;

/// A function that runs, in a program whose functions can run. Contracts see the names that it knows by `scope_in`.
#[derive(Clone, Copy)]
pub struct Frame<'a> {
    /// The functions of the program and the names of this one.
    pub scope: Scope<'a>,
    /// How many functions more may become active while it runs.
    pub room: u32,
    ghost runnable: { AreRunnableFunctions (program_of scope.functions) } by { functions-prop (program_of scope.functions) },
}
