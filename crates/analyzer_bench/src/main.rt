//! Writes, reads and draws the dump of a core that put outputs out, so that each can be timed. The program says how many bytes
//! the dump and the waveform have.
#![tactic(auto)]

mod rounds;

use crate::rounds::{Work, worked};
use sent_outputs::outputs_sent;
use std::{env, io};

// How many cycles an output is behind the one before it.
const DISTANCE: u64 = 10;

fn main(rt: HostRuntime) -> io::Result<()> {
    let Some(words) = read_words(&rt) else {
        return println!(rt; "words: OUTPUTS ROUNDS, and write, read or draw");
    };
    let alloc = rt.alloc();
    match outputs_sent(alloc, words.outputs, DISTANCE).and_then(|core| worked(
        alloc,
        &core,
        words.work,
        words.rounds,
    )) {
        Some(sizes) => {
            let (dump, waveform) = (sizes.dump, sizes.waveform);
            println!(rt; "{dump} bytes of a dump, {waveform} of its waveform")
        }
        None => println!(rt;
            "an output is lost or beyond the horizon, the dump has no bytes or no waveform, or there is no memory"
        ),
    }
}

// How many outputs, what is done with their dump, and how often.
#[derive(Clone, Copy)]
struct Words {
    outputs: u64,
    rounds: u64,
    work: Work,
}

fn read_words(rt: &HostRuntime) -> Option<Words> {
    let mut words = env::args(rt).ok()?.skip(1);
    Some(Words {
        outputs: words.next()?.parse().ok()?,
        rounds: words.next()?.parse().ok()?,
        work: work_named(words.next()?.as_str())?,
    })
}

fn work_named(word: &str) -> Option<Work> {
    match word {
        "write" => Some(Work::Write),
        "read" => Some(Work::Read),
        "draw" => Some(Work::Draw),
        _ => None,
    }
}
