// The lists of some code, which contracts see as lists.

ghost use Rattle.std.specs.Prelude.{◌≡◌};

use crate::{CodeFunction, CodeLine};
use rtio_types::Name;
use std::marker::Model;

/// The names that some code speaks of, which contracts see as that list.
#[derive(Debug, Drop)]
pub struct NameList {
    names: Vec<Name>,
}

impl Model for NameList {
    ghost use Rattle.std.specs.Prelude.{List, ℕ};

    ghost Value = { List (List ℕ) };

    ghost view = { λ l. l.names.items };
}

impl NameList {
    /// The list of these names.
    pub fn of(items: Vec<Name>) -> NameList
        ensures { result ≡ items.items }
    {
        NameList { names: items }
    }

    /// The names in order.
    pub fn items(&self) -> &[Name]
        ensures { result.now ≡ self.now }
    {
        self.names.as_slice()
    }
}

/// The functions of some code, which contracts see as that list.
#[derive(Debug, Drop)]
pub struct CodeFunctionList {
    functions: Vec<CodeFunction>,
}

impl Model for CodeFunctionList {
    ghost use Rattle.std.specs.Prelude.{List};
    ghost use Rattle.core_isa.specs.declared.code.CodeFunction.{CodeFunction};

    ghost Value = { List CodeFunction };

    ghost view = { λ l. l.functions.items };
}

impl CodeFunctionList {
    /// The list of these functions.
    pub fn of(items: Vec<CodeFunction>) -> CodeFunctionList
        ensures { result ≡ items.items }
    {
        CodeFunctionList { functions: items }
    }

    /// The functions in order.
    pub fn items(&self) -> &[CodeFunction]
        ensures { result.now ≡ self.now }
    {
        self.functions.as_slice()
    }
}

/// The instructions of some code with their marks, which contracts see as that list.
#[derive(Debug, Drop)]
pub struct CodeLineList {
    lines: Vec<CodeLine>,
}

impl Model for CodeLineList {
    ghost use Rattle.std.specs.Prelude.{List};
    ghost use Rattle.core_isa.specs.declared.code.CodeLine.{CodeLine};

    ghost Value = { List CodeLine };

    ghost view = { λ l. l.lines.items };
}

impl CodeLineList {
    /// The list of these lines.
    pub fn of(items: Vec<CodeLine>) -> CodeLineList
        ensures { result ≡ items.items }
    {
        CodeLineList { lines: items }
    }

    /// The lines in order.
    pub fn items(&self) -> &[CodeLine]
        ensures { result.now ≡ self.now }
    {
        self.lines.as_slice()
    }
}
