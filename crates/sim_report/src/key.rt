// Names as the keys of a map, and as text.

ghost use Rattle.std.specs.Prelude.{◌≡◌, bytes_eq};
ghost use Rattle.std.proofs.Common.{ap};
ghost use Rattle.std.specs.Hash as fed;
ghost use Rattle.std.specs.Cmp.{on_equiv, on_per, partial_equiv_from_equiv};
ghost use Rattle.std.specs.Cmp.Lexicographic.{nat_list_eq_equiv};
ghost use Rattle.std.proofs.lemmas.Slice.Eq.{bytes_eq-Decides};

use rtio_types::Name;
use std::hash::{Hash, Hasher};

/// The name of a dataset. Two of them are the same where their bytes are.
#[derive(Clone, Copy, Debug)]
pub struct Key {
    pub name: Name,
}

impl PartialEq for Key {
    ghost eq = { λ a b. bytes_eq a.name b.name };

    ghost laws = { on_per (λ key. key.name) (partial_equiv_from_equiv nat_list_eq_equiv) };

    fn eq(&self, other: &Key) -> bool {
        self.name.bytes() == other.name.bytes()
    }
}

impl Eq for Key {
    ghost laws = { on_equiv (λ key. key.name) nat_list_eq_equiv };
}

impl Hash for Key {
    ghost hash_input = { λ key. fed.slice fed.u8 key.name };

    ghost respects_eq = { λ a b same. ap (fed.slice fed.u8) ((bytes_eq-Decides a.name b.name).0 same) };

    fn hash<H: Hasher>(&self, state: &mut H) {
        self.name.bytes().hash(state);
    }
}

/// A name as text.
pub fn text_of(name: &Name) -> &str
    ensures { result.now ≡ name.now }
{
    match str::from_utf8(name.bytes()) {
        Ok(text) => text,
        Err(_) => unreachable!(),
    }
}
