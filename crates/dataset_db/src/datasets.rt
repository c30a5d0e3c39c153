// Datasets by their names.

ghost use Rattle.std.specs.Prelude.{◌≡◌, ◌↔◌, [], length, false, None, slice_get, option_map, IfOk, IfErr, IfSome, OnOk, OnErr};
ghost use Rattle.std.specs.Option.{option_copied};
ghost use Rattle.dataset_db.specs.Datasets.{after_append, after_set, dataset_of, flags_kept, flags_of, is_list, sum_of, value_of, with_dataset};

use indexmap::IndexMap;
use rtio_types::{IntList, Name, Value};
use std::alloc::{AllocError, AllocFailed, Global};
use std::marker::Model;

/// What else is done with a dataset, as the ARTIQ manual's management system has it.
#[derive(Clone, Copy, Debug, PartialEq, Eq)]
pub struct Flags {
    /// It is told to all clients.
    pub broadcast: bool,
    /// It is kept beyond the experiment. What persists is broadcast too.
    pub persist: bool,
    /// It is written with the results of the run.
    pub archive: bool,
}

/// Why an item isn't appended.
#[derive(Clone, Copy, Debug, PartialEq, Eq)]
pub enum AppendEnd {
    /// The name wasn't set.
    NoKey,
    /// The value is a number and not a list.
    NotList,
    /// Want of memory.
    Memory,
}

impl From<AllocError> for AppendEnd {
    ghost use Rattle.std.specs.Prelude.{◌≡◌};
    ghost use Rattle.dataset_db.specs.declared.datasets.AppendEnd.TheVariants.{Memory};

    ghost from_gives = { λ _ end. end ≡ Memory };

    fn from(_: AllocError) -> AppendEnd {
        AppendEnd::Memory
    }
}

impl<T: Drop> From<AllocFailed<T>> for AppendEnd {
    ghost use Rattle.std.specs.Prelude.{◌≡◌};
    ghost use Rattle.dataset_db.specs.declared.datasets.AppendEnd.TheVariants.{Memory};

    ghost from_gives = { λ _ end. end ≡ Memory };

    fn from(_: AllocFailed<T>) -> AppendEnd {
        AppendEnd::Memory
    }
}

// What is kept under a name.
#[derive(Debug, Drop)]
struct Entry {
    name: Name,
    value: Value,
    flags: Flags,
}

/// The datasets by name, in the order in which their names were first set. Contracts see them as that list.
#[derive(Debug, Drop)]
pub struct Datasets {
    entries: IndexMap<Vec<u8>, Entry>,
}

impl Model for Datasets {
    ghost use Rattle.std.specs.Prelude.{List};
    ghost use Rattle.dataset_db.specs.Datasets.{Dataset};

    ghost Value = { List Dataset };

    ghost use Rattle.dataset_db.specs.Fields.{datasets, IsInside};

    ghost view = { λ d. datasets d.entries.entries };

    ghost invariant = { λ d. IsInside d.entries.entries };
}

impl Datasets {
    /// No datasets.
    pub fn new(alloc: Global) -> Datasets
        ensures { result ≡ [] }
    {
        Datasets {
            entries: IndexMap::new(alloc),
        }
    }

    /// Sets a name to a value with flags; with `persist` it is broadcast too. A known name keeps its place, and a new one
    /// goes last. For want of memory the value comes back, and nothing has changed.
    pub fn set(
        &mut self,
        alloc: Global,
        name: &Name,
        value: Value,
        flags: Flags,
    ) -> Result<(), Value>
        ensures ok { OnOk result (self.new ≡ after_set self.old name.now value flags) }
        ensures value_returned { IfErr result (λ back. back ≡ value) }
        ensures err { OnErr result (self.new ≡ self.old) }
    {
        self.put(alloc, name, value, flags_kept(flags))
    }

    // Puts a value with just these flags under a name.
    fn put(&mut self, alloc: Global, name: &Name, value: Value, flags: Flags) -> Result<(), Value>
        ensures ok { OnOk result (self.new ≡ with_dataset self.old name.now value flags) }
        ensures value_returned { IfErr result (λ back. back ≡ value) }
        ensures err { OnErr result (self.new ≡ self.old) }
    {
        let Ok(key) = Vec::from_slice(alloc, name.bytes()) else {
            return Err(value);
        };
        let entry = Entry {
            name: *name,
            value,
            flags,
        };
        if let Err(refused) = self.entries.insert(key, entry) {
            let (_, Entry { value, .. }) = refused.value;
            return Err(value);
        }
        Ok(())
    }

    /// Appends an item to the list of a name, whose place and flags stay; the list may become longer than any that a step
    /// or a kernel sets. Where it isn't appended, nothing has changed. A list is copied with each item.
    pub fn append(&mut self, alloc: Global, name: &Name, item: i64) -> Result<(), AppendEnd>
        ensures ok { OnOk result (self.new ≡ after_append self.old name.now item) }
        ensures no_key { (result ≡ Err AppendEnd.NoKey) ↔ (value_of self.old name.now ≡ None) }
        ensures not_list { (result ≡ Err AppendEnd.NotList) ↔ (option_map is_list (value_of self.old name.now) ≡ Some false) }
        ensures err { OnErr result (self.new ≡ self.old) }
    {
        let Some(entry) = self.entries.get(name.bytes()) else {
            return Err(AppendEnd::NoKey);
        };
        let Value::List(list) = &entry.value else {
            return Err(AppendEnd::NotList);
        };
        let flags = entry.flags;
        let Ok(value) = longer(alloc, list, item) else {
            return Err(AppendEnd::Memory);
        };
        if self.put(alloc, name, value, flags).is_err() {
            return Err(AppendEnd::Memory);
        }
        Ok(())
    }

    /// An equal list of datasets; the only error is want of memory.
    pub fn copy(&self, alloc: Global) -> Result<Datasets, AllocError>
        ensures { IfOk result (λ copy. copy ≡ self.now) }
    {
        let mut entries = IndexMap::new(alloc);
        for position in 0..self.entries.len() {
            let (key, entry) = self.entries.get_index(position).unwrap();
            let copy = Entry {
                name: entry.name,
                value: entry.value.copy(alloc)?,
                flags: entry.flags,
            };
            entries.insert(Vec::from_slice(alloc, key.as_slice())?, copy)?;
        }
        Ok(Datasets { entries })
    }

    /// The value of a name; None where it wasn't set.
    pub fn get(&self, name: &Name) -> Option<&Value>
        ensures { option_copied result ≡ value_of self.now name.now }
    {
        let entry = self.entries.get(name.bytes())?;
        Some(&entry.value)
    }

    /// The sum of a name: that of its list, wrapped to 64 bits, or its number; None where it wasn't set.
    pub fn sum(&self, name: &Name) -> Option<i64>
        ensures { result ≡ option_map sum_of (value_of self.now name.now) }
    {
        Some(sum_of(self.get(name)?))
    }

    /// The flags of a name; None where it wasn't set.
    pub fn flags(&self, name: &Name) -> Option<Flags>
        ensures { result ≡ flags_of self.now name.now }
    {
        let entry = self.entries.get(name.bytes())?;
        Some(entry.flags)
    }

    /// How many datasets there are.
    pub fn len(&self) -> u64
        ensures { result ≡ length self.now }
    {
        self.entries.len() as u64
    }

    /// The name at a position of the list, from 0; None where the position isn't below the length. No other position
    /// has this name.
    pub fn name_at(&self, position: u64) -> Option<&Name>
        ensures name { option_copied result ≡ option_map (λ dataset. dataset.name) (slice_get self.now position) }
        ensures found { IfSome result (λ name. dataset_of self.now name.now ≡ slice_get self.now position) }
    {
        let (_, entry) = self.entries.get_index(position as usize)?;
        Some(&entry.name)
    }
}

ghost use Rattle.rtio_types.specs.declared.request.Value.TheVariants as value;
ghost use Rattle.dataset_db.specs.Datasets.{longer};

// A list with one item more, as a value.
fn longer(alloc: Global, list: &IntList, item: i64) -> Result<Value, AllocError>
    ensures { IfOk result (λ longer_list. longer_list ≡ longer item (value.List list.now)) }
{
    let mut items = Vec::from_slice(alloc, list.items())?;
    items.push(item)?;
    Ok(Value::List(IntList::of(items)))
}

// The flags that are kept.
fn flags_kept(flags: Flags) -> Flags
    ensures { result ≡ flags_kept flags }
{
    Flags {
        broadcast: flags.broadcast || flags.persist,
        ..flags
    }
}

// The sum of a value.
fn sum_of(value: &Value) -> i64
    ensures { result ≡ sum_of value.now }
{
    match value {
        Value::Int(n) => *n,
        Value::List(list) => total(list.items()),
    }
}

ghost use Rattle.std.specs.Int.{int_wrap, w64};
ghost use Rattle.dataset_db.specs.Datasets.{total};

// The sum of numbers, wrapped to 64 bits.
fn total(items: &[i64]) -> i64
    ensures { result ≡ int_wrap w64 (total items.now) }
{
    let mut sum = 0i64;
    for item in items {
        sum = plus(sum, *item);
    }
    sum
}

ghost use Rattle.std.specs.Prelude.{◌+ℤ◌};

fn plus(a: i64, b: i64) -> i64
    ensures { result ≡ int_wrap w64 (a +ℤ b) }
{
    a.wrapping_add(b)
}
