// A list of events with their submission numbers, in room that was taken before.

ghost use Rattle.sed_lanes.specs.Heads.{by_number};
ghost use Rattle.std.specs.List.{IsDistinct};
ghost use Rattle.std.specs.Map.{keys_of};
ghost use Rattle.std.specs.Prelude.{◌≡◌, nat_eq, ◌+◌, ◌-◌, ◌≤◌, ◌<◌, ◌++◌, [], ◌∷◌, IfOk, insert, length, remove, slice_get, Some};

use rtio_types::Event;
use std::alloc::{AllocError, Global};
use std::marker::Model;

/// A list of events with their submission numbers, in room that was taken before.
#[derive(Debug, Drop)]
pub struct Heads {
    pairs: Vec<(u64, Event)>,
    room: u32,
}

impl Model for Heads {
    ghost use Rattle.std.specs.Prelude.{◌≤◌, ◌+◌, ◌<◌, ◌^◌, length, vec_len, vec_capacity};
    ghost use Rattle.sed_lanes.specs.Heads.{HeadsState};

    ghost Value = { HeadsState };

    ghost view = { λ h. record { items = h.pairs.items; room = h.room } };

    ghost invariant = { λ h. (vec_len h.pairs + h.room ≤ vec_capacity h.pairs) × (vec_len h.pairs + h.room < 2 ^ 32) };
}

impl Heads {
    /// No pair, and room for so many.
    pub fn with_room(alloc: Global, n: u32) -> Result<Heads, AllocError>
        ensures { IfOk result (λ heads. heads ≡ record { items = []; room = n }) }
    {
        Ok(Heads {
            pairs: Vec::with_capacity(alloc, n as usize)?,
            room: n,
        })
    }

    /// How many pairs there are.
    pub fn len(&self) -> u32
        ensures { result ≡ length self.now.items }
    {
        self.pairs.len() as u32
    }

    /// The pair at a place, counted from 0.
    pub fn item(&self, i: u32) -> (u64, Event)
        requires { i < length self.now.items }
        ensures { slice_get self.now.items i ≡ Some result }
    {
        self.pairs[i as usize]
    }

    /// Adds a pair at the end.
    pub fn push(&mut self, number: u64, event: Event)
        requires { 0 < self.old.room }
        ensures { self.new ≡ record { items = self.old.items ++ (number, event) ∷ []; room = self.old.room - 1 } }
    {
        self.pairs.push_reserved((number, event));
        self.room -= 1;
    }

    /// Puts a pair in at a place, counted from 0. The later ones move down.
    pub fn insert(&mut self, i: u32, number: u64, event: Event)
        requires there { i ≤ length self.old.items }
        requires room { 0 < self.old.room }
        ensures pairs { self.new ≡ record { items = insert self.old.items i (number, event); room = self.old.room - 1 } }
        ensures len { length self.new.items ≡ length self.old.items + 1 }
    {
        if self.pairs.insert(i as usize, (number, event)).is_err() {
            unreachable!()
        }
        self.room -= 1;
    }

    /// Takes a pair out. The later ones move up.
    pub fn remove(&mut self, i: u32) -> (u64, Event)
        requires { i < length self.old.items }
        ensures taken { slice_get self.old.items i ≡ Some result }
        ensures rest { self.new ≡ record { items = remove self.old.items i; room = self.old.room + 1 } }
    {
        self.room += 1;
        self.pairs.remove(i as usize)
    }

    /// Takes all pairs out, and drops them.
    pub fn clear(&mut self)
        ensures { self.new ≡ record { items = []; room = self.old.room + length self.old.items } }
    {
        self.room += self.pairs.len() as u32;
        self.pairs.clear();
    }

    /// Puts the pairs in the order of their numbers, which differ.
    pub fn sort_by_number(&mut self)
        requires numbers { IsDistinct nat_eq (keys_of self.old.items) }
        ensures order { self.new ≡ record { items = by_number self.old.items; room = self.old.room } }
        ensures len { length self.new.items ≡ length self.old.items }
    {
        self.pairs.sort_unstable_by_key(|pair| pair.0);
    }
}
