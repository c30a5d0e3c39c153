// Paths from a value to a fault in it.

ghost use Rattle.std.specs.Prelude.{◌≡◌, [], ◌∷◌, IfOk};
ghost use Rattle.json_fields.specs.declared.path.Part.TheVariants as P;

use std::alloc::{AllocError, Global};
use std::marker::Model;

/// A key, which contracts see as its bytes.
#[derive(Debug, Drop)]
pub struct KeyText {
    text: String,
}

impl Model for KeyText {
    ghost use Rattle.std.specs.Prelude.{List, ℕ, string_bytes};

    ghost Value = { List ℕ };

    ghost view = { λ k. string_bytes k.text };
}

impl KeyText {
    /// The key's text.
    pub fn as_str(&self) -> &str
        ensures { result.now ≡ self.now }
    {
        self.text.as_str()
    }
}

/// A step of a path.
#[derive(Debug, Drop)]
pub enum Part {
    /// To the value of a key.
    Key(KeyText),
    /// To an item of a list, by its place from 0.
    Place(u64),
}

impl Part {
    /// The step to the value of a key; the only error is want of memory.
    pub fn key(alloc: Global, key: &str) -> Result<Part, AllocError>
        ensures { IfOk result (λ part. part ≡ P.Key key.now) }
    {
        let text = String::from_str(alloc, key)?;
        Ok(Part::Key(KeyText { text }))
    }
}

/// Steps from a value on, the first one first; contracts see them as that list.
#[derive(Debug, Drop)]
pub struct Path {
    parts: Vec<Part>,
}

impl Model for Path {
    ghost use Rattle.std.specs.Prelude.{List};
    ghost use Rattle.json_fields.specs.declared.path.Part.{Part};

    ghost Value = { List Part };

    ghost view = { λ p. p.parts.items };
}

impl Path {
    /// The path to the value itself.
    pub fn new(alloc: Global) -> Path
        ensures { result ≡ [] }
    {
        Path {
            parts: Vec::new(alloc),
        }
    }

    /// The path behind one step more; the only error is want of memory.
    pub fn behind(self, part: Part) -> Result<Path, AllocError>
        ensures { IfOk result (λ path. path ≡ part ∷ self) }
    {
        let mut parts = self.parts;
        parts.insert(0, part)?;
        Ok(Path { parts })
    }

    /// The steps in order.
    pub fn parts(&self) -> &[Part]
        ensures { result.now ≡ self.now }
    {
        self.parts.as_slice()
    }
}
