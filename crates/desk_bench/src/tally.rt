// A list of numbers, each with the chair that put it.
ghost use Rattle.std.specs.Prelude.{◌≡◌, ℕ, List, [], ◌∷◌, ◌++◌, IfOk, IfErr, IfSome, IsTrue};
ghost use Rattle.std.specs.List.{range_with_len};
ghost use Rattle.desk_rule.specs.Histories.{acts_of};
ghost use Rattle.desk_bench.specs.Complete.{HasAll};

use desk::Booked;
use std::alloc::{AllocError, Global};
use std::marker::Model;

/// Numbers, each with the chair that put it.
#[derive(Drop)]
pub struct Tally {
    items: Vec<(u32, u32)>,
}

impl Model for Tally {
    ghost Value = { List (ℕ × ℕ) };

    ghost view = { λ t. t.items.items };
}

impl Booked for Tally {
    type Act = u32;

    type Fixed = ();

    ghost history = { λ t. t };

    ghost fixed = { λ _. tt };
}

impl Tally {
    /// No numbers yet.
    pub fn new(alloc: Global) -> Tally
        ensures { result ≡ [] }
    {
        Tally {
            items: Vec::new(alloc),
        }
    }

    /// One number more, put by this chair. At `Err` there was no memory, and nothing is added.
    pub fn add(&mut self, by: u32, number: u32) -> Result<(), AllocError>
        ensures added { IfOk result (λ _. self.new ≡ self.old ++ (by, number) ∷ []) }
        ensures same { IfErr result (λ _. self.new ≡ self.old) }
    {
        match self.items.push((by, number)) {
            Ok(()) => Ok(()),
            Err(_) => Err(AllocError),
        }
    }

    /// Whether each chair below `chairs` has put the numbers from 0 to `puts`, in order, and there are no others.
    pub fn has_all(&self, chairs: u32, puts: u32) -> bool
        ensures { IsTrue result → HasAll chairs puts self.now }
    {
        if self.items.len() as u64 != u64::from(chairs) * u64::from(puts) {
            return false;
        }
        for by in 0..chairs {
            if self.count_in_order(by) != Some(puts) {
                return false;
            }
        }
        true
    }

    // How many numbers the chair has put, if they are those from 0 on, in order.
    fn count_in_order(&self, by: u32) -> Option<u32>
        ensures { IfSome result (λ count. acts_of by self.now ≡ range_with_len 0 count) }
    {
        let mut count: u32 = 0;
        for entry in &self.items {
            let (chair, number) = *entry;
            if chair == by {
                if number != count {
                    return None;
                }
                count = count.checked_add(1)?;
            }
        }
        Some(count)
    }
}
