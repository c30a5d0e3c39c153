// Reading fields from the front of some bytes.

ghost use Rattle.std.specs.Prelude.{◌≡◌, ◌-◌, ◌^◌, ◌≤◌, IfOk};
ghost use Rattle.std.specs.Int.{w16, w32, w64};
ghost use Rattle.std.specs.List.{list_all};
ghost use Rattle.core_image.specs.Reading.{Reads, byte_at, number_at, bytes_at, magic_at};
ghost use Rattle.core_image.specs.declared.reader.ReadEnd.TheVariants.{Memory, Wrong};
ghost use Rattle.rtio_types.specs.Names.{is_word_byte};

use rtio_types::Name;
use std::alloc::{AllocError, AllocFailed};

/// The first four bytes of an image.
pub const MAGIC: [u8; 4] = *b"KIM1";

/// The field at the front is cut off or out of its range.
#[derive(Clone, Copy, Debug, PartialEq, Eq)]
pub struct WrongField;

/// Why a reader that keeps what it reads stopped.
#[derive(Clone, Copy, Debug, PartialEq, Eq)]
pub enum ReadEnd {
    /// The field at the front is wrong.
    Wrong,
    /// There was no memory.
    Memory,
}

impl From<WrongField> for ReadEnd {
    ghost from_gives = { λ _ end. end ≡ Wrong };

    fn from(_: WrongField) -> ReadEnd {
        ReadEnd::Wrong
    }
}

impl From<AllocError> for ReadEnd {
    ghost from_gives = { λ _ end. end ≡ Memory };

    fn from(_: AllocError) -> ReadEnd {
        ReadEnd::Memory
    }
}

impl<T: Drop> From<AllocFailed<T>> for ReadEnd {
    ghost from_gives = { λ _ end. end ≡ Memory };

    fn from(_: AllocFailed<T>) -> ReadEnd {
        ReadEnd::Memory
    }
}

/// What is left of some bytes. A reader that stops at a wrong field stays there.
#[derive(Drop)]
pub struct Reader<'a> {
    pub rest: &'a [u8],
}

impl<'a> Reader<'a> {
    /// The first four bytes, which are the same in each image.
    #[tactic(auto, unfolding(crate::specs::Reading::magic_at, crate::specs::Reading::bytes_at))]
    pub fn magic(&mut self) -> Result<[u8; 4], WrongField>
        ensures { Reads (λ bytes. bytes) result self.new.rest.now (magic_at self.old.rest.now) }
    {
        match self.rest.strip_prefix(&MAGIC) {
            Some(rest) => {
                self.rest = rest;
                Ok(MAGIC)
            }
            None => Err(WrongField),
        }
    }

    /// A byte in a range.
    #[tactic(auto, unfolding(crate::specs::Reading::byte_at))]
    pub fn byte(&mut self, least: u8, most: u8) -> Result<u8, WrongField>
        ensures { Reads (λ n. n) result self.new.rest.now (byte_at least most self.old.rest.now) }
    {
        match self.rest {
            [first, rest @ ..] if least <= *first && *first <= most => {
                self.rest = rest;
                Ok(*first)
            }
            _ => Err(WrongField),
        }
    }

    /// A number of two bytes in a range.
    #[tactic(auto, unfolding(crate::specs::Reading::number_at))]
    pub fn short(&mut self, least: u16, most: u16) -> Result<u16, WrongField>
        ensures least { IfOk result (λ n. least ≤ n) }
        ensures read { Reads (λ n. n) result self.new.rest.now (number_at w16 least most self.old.rest.now) }
    {
        let [a, b, rest @ ..] = self.rest else {
            return Err(WrongField);
        };
        let number = u16::from_le_bytes([*a, *b]);
        if number < least || most < number {
            return Err(WrongField);
        }
        self.rest = rest;
        Ok(number)
    }

    /// A number of four bytes in a range.
    #[tactic(auto, unfolding(crate::specs::Reading::number_at))]
    pub fn long(&mut self, least: u32, most: u32) -> Result<u32, WrongField>
        ensures least { IfOk result (λ n. least ≤ n) }
        ensures most { IfOk result (λ n. n ≤ most) }
        ensures read { Reads (λ n. n) result self.new.rest.now (number_at w32 least most self.old.rest.now) }
    {
        let [a, b, c, d, rest @ ..] = self.rest else {
            return Err(WrongField);
        };
        let number = u32::from_le_bytes([*a, *b, *c, *d]);
        if number < least || most < number {
            return Err(WrongField);
        }
        self.rest = rest;
        Ok(number)
    }

    /// Any number of eight bytes.
    #[tactic(auto, unfolding(crate::specs::Reading::number_at))]
    pub fn double(&mut self) -> Result<u64, WrongField>
        ensures { Reads (λ n. n) result self.new.rest.now (number_at w64 0 (2 ^ 64 - 1) self.old.rest.now) }
    {
        let [a, b, c, d, e, f, g, h, rest @ ..] = self.rest else {
            return Err(WrongField);
        };
        self.rest = rest;
        Ok(u64::from_le_bytes([*a, *b, *c, *d, *e, *f, *g, *h]))
    }

    /// A name of so many bytes.
    #[tactic(auto, unfolding(crate::specs::Reading::bytes_at))]
    pub fn text(&mut self, len: u8) -> Result<Name, WrongField>
        requires least { 1 ≤ len }
        requires most { len ≤ 32 }
        ensures { Reads (λ name. name) result self.new.rest.now (bytes_at len (list_all is_word_byte) self.old.rest.now) }
    {
        let len = len as usize;
        if self.rest.len() < len {
            return Err(WrongField);
        }
        let (front, rest) = self.rest.split_at(len);
        let name = Name::read(front).ok_or(WrongField)?;
        self.rest = rest;
        Ok(name)
    }
}
