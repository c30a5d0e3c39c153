// The names of recordings and datasets.

ghost use Rattle.std.specs.Prelude.{◌≡◌, ◌++◌, [], ◌∷◌, IsTrue, OnOk};
ghost use Rattle.rtio_types.specs.Names.{is_name};

use indexmap::IndexSet;
use rtio_types::Name;
use std::alloc::{AllocError, Global};
use std::marker::Model;

/// The names of recordings and datasets, each once, in the order in which they are added. Contracts see them as a list.
#[derive(Drop)]
pub struct Texts {
    texts: IndexSet<Vec<u8>>,
}

impl Model for Texts {
    ghost use Rattle.std.specs.Prelude.{List, ℕ, map};
    ghost use Rattle.core_code_names.specs.Named.{AreNames};

    ghost Value = { List (List ℕ) };

    ghost view = { λ t. map (λ text. text.items) t.texts.keys };

    ghost invariant = { λ t. AreNames (map (λ text. text.items) t.texts.keys) };
}

impl Texts {
    ghost use Rattle.std.specs.Prelude.{◌≡◌, ◌<◌, [], IfOk, OnErr, OnOk, bytes_eq, length, position};
    ghost use Rattle.kern_expression_types.specs.Before.{with_member};

    /// No texts.
    pub fn new(alloc: Global) -> Texts
        ensures { result ≡ [] }
    {
        Texts {
            texts: IndexSet::new(alloc),
        }
    }

    /// How many texts there are.
    pub fn len(&self) -> usize
        ensures { result ≡ length self.now }
    {
        self.texts.len()
    }

    /// The place of a text, from 0.
    pub fn place(&self, text: &[u8]) -> Option<usize>
        ensures { result ≡ position (bytes_eq text.now) self.now }
    {
        self.texts.get_index_of(text)
    }

    /// Puts a name at the end, unless it is there.
    pub fn add(&mut self, alloc: Global, name: &Name) -> Result<(), AllocError>
        ensures { OnOk result (self.new ≡ with_member self.old name.now) }
    {
        self.texts.insert(Vec::from_slice(alloc, name.bytes())?)?;
        Ok(())
    }

    /// The texts as names. It ends early only for want of memory, and only where there is a text.
    pub fn names(&self, alloc: Global) -> Result<Vec<Name>, AllocError>
        ensures names { IfOk result (λ names. names.items ≡ self.now) }
        ensures memory { OnErr result (0 < length self.now) }
    {
        let mut names = Vec::new(alloc);
        for text in self.texts.as_slice().iter() {
            push_name(&mut names, text.as_slice())?;
        }
        Ok(names)
    }
}

// Puts a text of the form of a name behind names.
fn push_name(names: &mut Vec<Name>, text: &[u8]) -> Result<(), AllocError>
    requires { IsTrue (is_name text.now) }
    ensures { OnOk result (names.new.items ≡ names.old.items ++ text.now ∷ []) }
{
    names.push(Name::read(text).unwrap())?;
    Ok(())
}
