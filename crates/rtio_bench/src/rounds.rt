// All rounds, and what they come to.

ghost use Rattle.std.specs.Prelude.{◌≡◌, ◌≤◌, ◌*◌, IfSome};
ghost use Rattle.rtio_bench.specs.Sums.{lengths_sum, stamps_sum};

use crate::edges::edges_read;
use crate::recordings::{Lengths, lengths_found};
use std::alloc::Global;

/// How many edges and how many recordings there may be.
pub const MOST: u16 = 4096;

/// How many edges and recordings, and how often all is done.
#[derive(Clone, Copy)]
pub struct Sizes {
    pub edges: u16,
    pub recordings: u16,
    pub rounds: u32,
}

/// Sums over all rounds, in mu.
#[derive(Clone, Copy)]
pub struct Sums {
    /// Of the stamps of the edges.
    pub stamps: u64,
    /// Of the lengths of the recordings.
    pub lengths: Lengths,
}

/// Reads all edges and looks up all recordings in each round; None where one is lost or there is no memory.
#[tactic(auto, using(crate::proofs::Sums::round_more, crate::proofs::Sums::stamps_fit, crate::proofs::Sums::lengths_fit))]
pub fn all_rounds(alloc: Global, sizes: Sizes) -> Option<Sums>
    requires edges { sizes.edges ≤ 4096 }
    requires recordings { sizes.recordings ≤ 4096 }
    ensures stamps { IfSome result (λ sums. sums.stamps ≡ sizes.rounds * stamps_sum sizes.edges) }
    ensures by_name { IfSome result (λ sums. sums.lengths.by_name ≡ sizes.rounds * lengths_sum sizes.recordings) }
    ensures by_handle { IfSome result (λ sums. sums.lengths.by_handle ≡ sizes.rounds * lengths_sum sizes.recordings) }
{
    let mut stamps: u64 = 0;
    let mut by_name: u64 = 0;
    let mut by_handle: u64 = 0;
    for _round in 0..sizes.rounds {
        let lengths = lengths_found(alloc, sizes.recordings)?;
        stamps += edges_read(alloc, sizes.edges)?;
        by_name += lengths.by_name;
        by_handle += lengths.by_handle;
    }
    let lengths = Lengths { by_name, by_handle };
    Some(Sums { stamps, lengths })
}
