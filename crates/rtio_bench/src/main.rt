//! Reads edges one by one, and looks up saved recordings by name and by handle. The program says what it read.
#![tactic(auto)]

mod edges;
mod recordings;
mod rounds;

use crate::recordings::Lengths;
use crate::rounds::{MOST, Sizes, all_rounds};
use std::{env, io};

fn main(rt: HostRuntime) -> io::Result<()> {
    let Some(sizes) = read_sizes(&rt) else {
        return println!(rt; "words: EDGES RECORDINGS ROUNDS, the first two up to {MOST}");
    };
    if MOST < sizes.edges || MOST < sizes.recordings {
        return println!(rt; "too many: there may be {MOST} edges and {MOST} recordings");
    }
    let Some(sums) = all_rounds(rt.alloc(), sizes) else {
        return println!(rt; "an edge or a recording is lost, or there is no memory");
    };
    let Lengths { by_name, by_handle } = sums.lengths;
    println!(rt; "{} edges read, stamps {}", sizes.edges, sums.stamps)?;
    println!(rt;
        "{} recordings found, lengths {by_name} by name and {by_handle} by handle",
        sizes.recordings
    )
}

fn read_sizes(rt: &HostRuntime) -> Option<Sizes> {
    let mut words = env::args(rt).ok()?.skip(1);
    Some(Sizes {
        edges: words.next()?.parse().ok()?,
        recordings: words.next()?.parse().ok()?,
        rounds: words.next()?.parse().ok()?,
    })
}
