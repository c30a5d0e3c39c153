// The names of a function with their types and slots.

ghost use Rattle.std.specs.Prelude.{◌≡◌};
ghost use Rattle.code_forms.specs.Setting.{size_of};

use kern_calls::ValueType;
use kern_names::Names;
use std::alloc::{AllocError, Global};
use std::marker::Model;

// How many slots a value of a type takes.
fn size_of(kind: ValueType) -> u16
    ensures { result ≡ size_of kind }
{
    match kind {
        ValueType::Array(length) => length,
        _ => 1,
    }
}

/// The names of a function with their types, each with its first slot. The slots follow one another in the order of the
/// names. Contracts see them as a list of names with types.
#[derive(Drop)]
pub struct SlottedNames {
    names: Names,
    firsts: Vec<u16>,
    slots: u16,
}

impl Model for SlottedNames {
    ghost use Rattle.std.specs.Prelude.{List, ℕ};
    ghost use Rattle.kern_calls.specs.declared.types.ValueType.{ValueType};
    ghost use Rattle.core_code_names.specs.Slots.{AreSlots};

    ghost Value = { List (List ℕ × ValueType) };

    ghost view = { λ n. n.names };

    ghost invariant = { λ n. AreSlots n.names n.firsts.items n.slots };
}

impl SlottedNames {
    ghost use Rattle.std.specs.Prelude.{◌≡◌, IfOk};
    ghost use Rattle.kern_calls.specs.Calls.{look_up};
    ghost use Rattle.code_forms.specs.Setting.{slot_in, slots_of_names};
    ghost use Rattle.core_code_names.specs.Slots.{capped};

    /// Names with their slots. It ends early only for want of memory.
    pub fn of(alloc: Global, names: Names) -> Result<SlottedNames, AllocError>
        ensures { IfOk result (λ slotted. slotted ≡ names) }
    {
        let mut firsts = Vec::new(alloc);
        let mut slots: u16 = 0;
        for place in 0..names.len() {
            firsts.push(slots)?;
            slots = slots.saturating_add(size_of(names.at(place).kind));
        }
        Ok(SlottedNames {
            names,
            firsts,
            slots,
        })
    }

    /// The type of a name.
    pub fn kind(&self, name: &[u8]) -> Option<ValueType>
        ensures { result ≡ look_up self.now name.now }
    {
        self.names.kind(name)
    }

    /// The first slot of a name, of another the first one behind those of the names; at most 65,535.
    pub fn slot(&self, name: &[u8]) -> u16
        ensures { result ≡ capped (slot_in self.now name.now) }
    {
        match self.names.place(name) {
            Some(place) => self.firsts[place],
            None => self.slots,
        }
    }

    /// How many slots the names take; at most 65,535.
    pub fn slots(&self) -> u16
        ensures { result ≡ capped (slots_of_names self.now) }
    {
        self.slots
    }
}
