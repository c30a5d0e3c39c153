//! Reads sessions from files, each so many times, and says of each what it has, or the line that refuses it. In a file
//! whose name ends with `.tsv` each line has a remark, a tab and a session of its own, and its answer follows the remark.
#![tactic(auto)]

use exp_json::{FieldKind, SessionFault, read_session};
use exp_model::Session;
use std::alloc::{AllocError, Global};
use std::{env, fs, io};

fn main(rt: HostRuntime) -> io::Result<()> {
    let mut words = env::args(&rt)?.skip(1);
    let rounds = words.next().and_then(|word| word.parse::<u32>().ok());
    let Some(rounds) = rounds else {
        return println!(rt; "words: ROUNDS FILE..");
    };
    for path in words {
        if path.ends_with(".tsv") {
            read_lines(&rt, path.as_str())?;
        } else {
            read_file(&rt, path.as_str(), rounds)?;
        }
    }
    Ok(())
}

// Says what the one session of a file has, which is read so many times.
fn read_file(rt: &HostRuntime, path: &str, rounds: u32) -> io::Result<()> {
    let bytes = fs::read(rt, path)?;
    for _ in 1..rounds {
        let _ = read_session(rt.alloc(), bytes.as_slice());
    }
    let line = line_of(rt.alloc(), bytes.as_slice())?;
    println!(rt; "{path}: {line}")
}

// Says what the session of each line of a file has, behind the line's remark.
fn read_lines(rt: &HostRuntime, path: &str) -> io::Result<()> {
    let text = fs::read_to_string(rt, path)?;
    for line in text.lines() {
        if let Some((remark, session)) = line.split_once('\t') {
            let found = line_of(rt.alloc(), session.as_bytes())?;
            println!(rt; "{remark}: {found}")?;
        }
    }
    Ok(())
}

// What the bytes have, or the line that refuses them.
fn line_of(alloc: Global, bytes: &[u8]) -> Result<String, AllocError> {
    match read_session(alloc, bytes) {
        Ok(session) => sizes_of(alloc, &session),
        Err(SessionFault::Json) => String::from_str(alloc, "session json"),
        Err(SessionFault::Field { path, kind }) => {
            format!(in alloc; "session {} {}", path.as_str(), kind_name(kind))
        }
        Err(SessionFault::Memory) => Err(AllocError),
    }
}

fn sizes_of(alloc: Global, session: &Session) -> Result<String, AllocError> {
    format!(in alloc;
        "{} pipelines, {} sources, {} experiments, {} arrivals",
        session.pipelines.items().len(),
        session.sources.items().len(),
        session.experiments.items().len(),
        session.arrivals.items().len()
    )
}

// The name of a kind, as it is printed.
fn kind_name(kind: FieldKind) -> &'static str {
    match kind {
        FieldKind::Missing => "Missing",
        FieldKind::Unknown => "Unknown",
        FieldKind::Shape => "Type",
        FieldKind::Range => "Range",
        FieldKind::Index => "Index",
        FieldKind::Order => "Order",
    }
}
