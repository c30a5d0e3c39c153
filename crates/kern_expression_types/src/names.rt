// The names of a function with their types, and the names of all functions with fast look-up.

ghost use Rattle.std.specs.Prelude.{◌≡◌, ◌++◌, [], ◌∷◌, ◌<◌, List, ℕ, length, IfOk, OnOk};
ghost use Rattle.kern_expression_types.specs.Before.{is_in, with_member};
ghost use Rattle.kern_expression_types.specs.FunctionNames.{function_names};
ghost use Rattle.kern_calls.specs.Calls.{look_up};

use arrayvec::ArrayVec;
use indexmap::IndexSet;
use kern_calls::ValueType;
use kern_syntax::Function;
use std::alloc::{AllocError, Global};
use std::marker::Model;

// A name of a function, with its type.
#[derive(Clone, Copy)]
struct Local<'a> {
    name: &'a [u8],
    kind: ValueType,
}

impl Default for Local<'_> {
    fn default() -> Self {
        Local {
            name: b"",
            kind: ValueType::Bool,
        }
    }
}

/// The names of a function with their types, in the order of their first assignment: at most 64, kept in the value
/// itself. Contracts see them as a list of pairs.
#[derive(Drop)]
pub struct Locals<'a> {
    names: ArrayVec<Local<'a>, 64>,
}

impl<'a> Model for Locals<'a> {
    ghost use Rattle.std.specs.Prelude.{List, ℕ, map};
    ghost use Rattle.kern_calls.specs.declared.types.ValueType.{ValueType};

    ghost Value = { List (List ℕ × ValueType) };

    ghost view = { λ l. map (λ local. (local.name.now, local.kind)) l.names.items };
}

impl<'a> Locals<'a> {
    /// No names.
    pub fn new() -> Self
        ensures { result ≡ [] }
    {
        Locals {
            names: ArrayVec::new(),
        }
    }

    /// How many names there are.
    pub fn len(&self) -> usize
        ensures { result ≡ length self.now }
    {
        self.names.len()
    }

    /// The type of a name.
    pub fn get(&self, name: &[u8]) -> Option<ValueType>
        ensures { result ≡ look_up self.now name.now }
    {
        match first_local(self.names.as_slice(), name) {
            Some(local) => Some(local.kind),
            None => None,
        }
    }

    /// Adds a name with its type.
    pub fn add(&mut self, name: &'a [u8], kind: ValueType)
        requires { length self.old < 64 }
        ensures { self.new ≡ self.old ++ (name.now, kind) ∷ [] }
    {
        self.names.push(Local { name, kind });
    }
}

ghost use Rattle.std.specs.Prelude.{bytes_eq, find, option_copied};
ghost use Rattle.std.specs.List.{list_any};

// The first of some names of a function that is this one.
fn first_local<'l, 'a>(locals: &'l [Local<'a>], name: &[u8]) -> Option<&'l Local<'a>>
    ensures { option_copied result ≡ find (λ l. bytes_eq name.now l.name.now) locals.now }
{
    locals.iter().find(|local| name == local.name)
}

/// Whether a name is one of these.
pub fn is_among(names: &[&[u8]], name: &[u8]) -> bool
    ensures { result ≡ list_any (λ n. bytes_eq name.now n.now) names.now }
{
    names.iter().any(|other| name == *other)
}

/// The first of some functions that has a name.
pub fn first_named<'a>(functions: &'a [Function], name: &[u8]) -> Option<&'a Function>
    ensures { option_copied result ≡ find (λ f. bytes_eq name.now f.name) functions.now }
{
    functions
        .iter()
        .find(|function| name == function.name.bytes())
}

/// The names of the functions of a program, in the order of the text, with fast look-up where there was memory for it.
/// Contracts see them as the list of them.
#[derive(Drop)]
pub struct FunctionNames<'a> {
    functions: &'a [Function],
    index: Option<NameList>,
}

impl<'a> Model for FunctionNames<'a> {
    ghost use Rattle.std.specs.Prelude.{◌≡◌, List, ℕ};
    ghost use Rattle.std.specs.Option.{ForSome};
    ghost use Rattle.kern_expression_types.specs.Before.{is_in};
    ghost use Rattle.kern_expression_types.specs.FunctionNames.{function_names};

    ghost Value = { List (List ℕ) };

    ghost view = { λ l. function_names l.functions.now };

    ghost invariant = { λ l. ForSome l.index (λ index. (name : List ℕ) → is_in index name ≡ is_in (function_names l.functions.now) name) };
}

impl<'a> FunctionNames<'a> {
    /// The names of these functions. It needs no memory: where some is refused, look-up is slow.
    pub fn of(alloc: Global, functions: &'a [Function]) -> Self
        ensures { result ≡ function_names functions.now }
    {
        let index = indexed(alloc, functions).ok();
        FunctionNames { functions, index }
    }

    /// Whether a function has a name.
    pub fn contains(&self, name: &[u8]) -> bool
        ensures { result ≡ is_in self.now name.now }
    {
        match &self.index {
            Some(index) => index.contains(name),
            None => first_named(self.functions, name).is_some(),
        }
    }
}

// The names of functions in a list of their own.
fn indexed(alloc: Global, functions: &[Function]) -> Result<NameList, AllocError>
    ensures { IfOk result (λ index. (name : List ℕ) → is_in index name ≡ is_in (function_names functions.now) name) }
{
    let mut names = NameList::new(alloc);
    for function in functions.iter() {
        names.add(alloc, function.name.bytes())?;
    }
    Ok(names)
}

// Names that differ, which contracts see as the list of them.
#[derive(Drop)]
struct NameList {
    names: IndexSet<Vec<u8>>,
}

impl Model for NameList {
    ghost use Rattle.std.specs.Prelude.{List, ℕ, map};

    ghost Value = { List (List ℕ) };

    ghost view = { λ l. map (λ name. name.items) l.names.keys };
}

impl NameList {
    fn new(alloc: Global) -> NameList
        ensures { result ≡ [] }
    {
        NameList {
            names: IndexSet::new(alloc),
        }
    }

    fn contains(&self, name: &[u8]) -> bool
        ensures { result ≡ is_in self.now name.now }
    {
        self.names.contains(name)
    }

    // Puts a name at the end, unless it is in the list.
    fn add(&mut self, alloc: Global, name: &[u8]) -> Result<(), AllocError>
        ensures { OnOk result (self.new ≡ with_member self.old name.now) }
    {
        self.names.insert(Vec::from_slice(alloc, name)?)?;
        Ok(())
    }
}
