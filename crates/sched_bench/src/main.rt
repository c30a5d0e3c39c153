//! Serves sessions by calls of the scheduler alone: kernels aren't run, they return. The program says how many runs there were,
//! how many entries the history has, and where the lab clock stands in the end.
#![tactic(auto)]

mod serving;

ghost use Rattle.std.specs.Prelude.{IsTrue};
ghost use Rattle.exp_model.specs.Sessions.{is_session};

use crate::serving::{Reached, reached_by, served};
use exp_json::read_session;
use exp_model::Session;
use std::alloc::Global;
use std::{env, fs, io};

fn main(rt: HostRuntime) -> io::Result<()> {
    let mut words = env::args(&rt)?.skip(1);
    let rounds = words.next().and_then(|word| word.parse::<u32>().ok());
    let Some(rounds) = rounds else {
        return println!(rt; "words: ROUNDS FILE..");
    };
    for path in words {
        serve_file(&rt, path.as_str(), rounds)?;
    }
    Ok(())
}

// Serves the session of a file so many times, and says what it came to.
fn serve_file(rt: &HostRuntime, path: &str, rounds: u32) -> io::Result<()> {
    let bytes = fs::read(rt, path)?;
    let Ok(session) = read_session(rt.alloc(), bytes.as_slice()) else {
        return println!(rt; "{path}: no session");
    };
    match served_often(rt.alloc(), &session, rounds) {
        Some(last) => {
            let (runs, entries, clock) = (last.runs, last.entries, last.clock);
            println!(rt; "{path}: {runs} runs, {entries} entries, clock {clock}")
        }
        None => println!(rt; "{path}: not served"),
    }
}

// Serves the session so many times, and tells of the last time.
fn served_often(alloc: Global, session: &Session, rounds: u32) -> Option<Reached>
    requires { IsTrue (is_session session.now) }
{
    let mut last = None;
    for _round in 0..rounds {
        last = Some(reached_by(&served(alloc, session)?));
    }
    last
}
