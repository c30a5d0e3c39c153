// The places of the functions of a program, found by their names.

ghost use Rattle.std.specs.Prelude.{◌≡◌, ◌++◌, [], ◌∷◌, None, OnOk};
ghost use Rattle.kern_calls.specs.Calls.{look_up};

use indexmap::IndexMap;
use std::alloc::{AllocError, Global};
use std::marker::Model;

/// The functions of a program by their names, each with its place in the text, from 0; contracts see them as a list of
/// pairs.
#[derive(Drop)]
pub struct FunctionNumbers {
    numbers: IndexMap<Vec<u8>, usize>,
}

impl Model for FunctionNumbers {
    ghost use Rattle.std.specs.Prelude.{List, ℕ, map};

    ghost Value = { List (List ℕ × ℕ) };

    ghost view = { λ l. map (λ entry. (entry.0.items, entry.1)) l.numbers.entries };
}

impl FunctionNumbers {
    /// No functions.
    pub(crate) fn new(alloc: Global) -> FunctionNumbers
        ensures { result ≡ [] }
    {
        FunctionNumbers {
            numbers: IndexMap::new(alloc),
        }
    }

    /// The place of the function of a name.
    pub fn get(&self, name: &[u8]) -> Option<usize>
        ensures { result ≡ look_up self.now name.now }
    {
        self.numbers.get(name).copied()
    }

    /// Adds a function whose name isn't there.
    pub(crate) fn add(
        &mut self,
        alloc: Global,
        name: &[u8],
        number: usize,
    ) -> Result<(), AllocError>
        requires { look_up self.old name.now ≡ None }
        ensures { OnOk result (self.new ≡ self.old ++ (name.now, number) ∷ []) }
    {
        self.numbers.insert(Vec::from_slice(alloc, name)?, number)?;
        Ok(())
    }
}
