//! Sends outputs through a core, from the request to the trace. The program says how many were put out, and where the counter
//! stood in the end.
#![tactic(auto)]

use sent_outputs::outputs_sent;
use std::{env, io};

fn main(rt: HostRuntime) -> io::Result<()> {
    let Some(sizes) = read_sizes(&rt) else {
        return println!(rt;
            "words: OUTPUTS DISTANCE ROUNDS, the distance from one to the next in cycles"
        );
    };
    let mut last = None;
    for _round in 0..sizes.rounds {
        last = outputs_sent(rt.alloc(), sizes.outputs, sizes.distance);
    }
    match last {
        Some(core) => {
            let (put_out, counter) = (core.trace().len(), core.counter());
            println!(rt; "{put_out} outputs put out, counter {counter}")
        }
        None => println!(rt; "an output is lost or beyond the horizon, or there is no memory"),
    }
}

// How many outputs, how many cycles from one to the next, and how often all is done.
#[derive(Clone, Copy)]
struct Sizes {
    outputs: u64,
    distance: u64,
    rounds: u64,
}

fn read_sizes(rt: &HostRuntime) -> Option<Sizes> {
    let mut words = env::args(rt).ok()?.skip(1);
    Some(Sizes {
        outputs: words.next()?.parse().ok()?,
        distance: words.next()?.parse().ok()?,
        rounds: words.next()?.parse().ok()?,
    })
}
