// The names of a function with their types.

use indexmap::IndexMap;
use kern_calls::ValueType;
use std::alloc::{AllocError, Global};
use std::marker::Model;

/// A name with its type.
#[derive(Clone, Copy)]
pub struct KnownName<'a> {
    /// The bytes of the name.
    pub name: &'a [u8],
    /// Its type.
    pub kind: ValueType,
}

/// The names of a function with their types, in the order of their first assignment. Contracts see them as a list of names
/// with types.
#[derive(Drop)]
pub struct Names {
    types: IndexMap<Vec<u8>, ValueType>,
}

impl Model for Names {
    ghost use Rattle.std.specs.Prelude.{List, ℕ, map};
    ghost use Rattle.kern_calls.specs.declared.types.ValueType.{ValueType};

    ghost Value = { List (List ℕ × ValueType) };

    ghost view = { λ n. map (λ entry. (entry.0.items, entry.1)) n.types.entries };
}

impl Names {
    ghost use Rattle.std.specs.Prelude.{◌≡◌, ◌<◌, ◌++◌, [], ◌∷◌, None, OnOk, Some, bytes_eq, length, position, slice_get};
    ghost use Rattle.kern_calls.specs.Calls.{look_up};
    ghost use Rattle.kern_calls.specs.Types.{with_name};

    /// No names.
    pub(crate) fn new(alloc: Global) -> Names
        ensures { result ≡ [] }
    {
        Names {
            types: IndexMap::new(alloc),
        }
    }

    /// How many names there are.
    pub fn len(&self) -> usize
        ensures { result ≡ length self.now }
    {
        self.types.len()
    }

    /// The type of a name.
    pub fn kind(&self, name: &[u8]) -> Option<ValueType>
        ensures { result ≡ look_up self.now name.now }
    {
        self.types.get(name).copied()
    }

    /// The place of a name in their order, from 0.
    pub fn place(&self, name: &[u8]) -> Option<usize>
        ensures { result ≡ position (λ known. bytes_eq name.now known.0) self.now }
    {
        self.types.get_index_of(name)
    }

    /// The name at a place.
    pub fn at(&self, place: usize) -> KnownName<'_>
        requires { place < length self.now }
        ensures { slice_get self.now place ≡ Some (result.name.now, result.kind) }
    {
        let (name, kind) = self.types.get_index(place).unwrap();
        KnownName {
            name: name.as_slice(),
            kind: *kind,
        }
    }

    /// Puts a name that isn't there behind the others.
    pub(crate) fn add(
        &mut self,
        alloc: Global,
        name: &[u8],
        kind: ValueType,
    ) -> Result<(), AllocError>
        requires { look_up self.old name.now ≡ None }
        ensures { OnOk result (self.new ≡ self.old ++ (name.now, kind) ∷ []) }
    {
        let key = Vec::from_slice(alloc, name)?;
        self.types.insert(key, kind)?;
        Ok(())
    }

    /// Assigns to a name: a new one goes behind the others, a known one keeps its place and its type.
    pub(crate) fn assign(
        &mut self,
        alloc: Global,
        name: &[u8],
        kind: ValueType,
    ) -> Result<(), AllocError>
        ensures { OnOk result (self.new ≡ with_name self.old name.now kind) }
    {
        match self.kind(name) {
            Some(_) => Ok(()),
            None => self.add(alloc, name, kind),
        }
    }
}
