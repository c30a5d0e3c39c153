// A kernel and what its `main` means under replies that are all Done. Worked out by hand from the rules of the timeline.

use kern_lexer::lex;
use kern_parser::{SyntaxEnd, parse};
use kern_types::{Checked, check};
use rtio_types::{Reply, Request};
use std::alloc::{AllocError, Global};
use std::process::Abort;
use std::test::Fail;
use timeline_meaning::meaning;

// Two pulses in parallel: the second one begins 30 mu later.
const PULSES: &str = r#"
def main():
    at_mu(1000)
    with parallel:
        ttl0.pulse_mu(100)
        with sequential:
            delay_mu(30)
            ttl1.pulse_mu(200)
"#;

// How many replies there are, and what is said of the meaning with 100 units: outputs in the order in which they are asked.
const ROWS: &[(usize, &str)] = &[
    (
        4,
        "0 on at 1000, 0 off at 1100, 1 on at 1030, 1 off at 1230, Returned, cursor 1230, units 96",
    ),
    // Replies that aren't used are ignored.
    (
        6,
        "0 on at 1000, 0 off at 1100, 1 on at 1030, 1 off at 1230, Returned, cursor 1230, units 96",
    ),
    // The last output gets no reply.
    (
        3,
        "0 on at 1000, 0 off at 1100, 1 on at 1030, 1 off at 1230, Unanswered, cursor 1230, units 96",
    ),
    (0, "0 on at 1000, Unanswered, cursor 1000, units 99"),
];

#[test]
fn parallel_pulses_begin_at_the_same_cursor(rt: HostRuntime) -> Result<(), Fail> {
    let alloc = rt.alloc();
    let checked = checked_of(&rt, alloc, PULSES)?;
    for (replies, said) in ROWS {
        let found = told(alloc, &checked, *replies)?;
        assert_eq!(rt; found.as_str(), *said);
    }
    Ok(())
}

// What is said of the meaning of the first function under so many replies.
fn told(alloc: Global, checked: &Checked, replies: usize) -> Result<String, Fail> {
    let mut done = Vec::new(alloc);
    for _reply in 0..replies {
        done.push(Reply::Done)?;
    }
    let meant = meaning(alloc, checked, 0, &[], 0, 100, &done)?;
    let mut text = String::new(alloc);
    for request in &meant.requests {
        if let Request::Out(event) = request {
            let channel = event.channel;
            let stamp = event.stamp;
            let change = if event.value == 1 { "on" } else { "off" };
            write!(text, "{channel} {change} at {stamp}, ")?;
        }
    }
    let outcome = meant.outcome;
    let cursor = meant.cursor;
    let units = meant.units;
    write!(text, "{outcome:?}, cursor {cursor}, units {units}")?;
    Ok(text)
}

// The checked program of a text.
fn checked_of(rt: &impl Abort, alloc: Global, text: &str) -> Result<Checked, Fail> {
    let bytes = text.as_bytes();
    assert!(rt; bytes.len() < 1_000_000);
    let tokens = lex(alloc, bytes)?;
    let program = match parse(alloc, &tokens, bytes) {
        Ok(program) => program,
        Err(SyntaxEnd::Memory) => return Err(AllocError.into()),
        Err(SyntaxEnd::Fault { token }) => panic!(rt; "syntax at token {token}"),
    };
    match check(alloc, program) {
        Ok(checked) => Ok(checked),
        Err(fault) => panic!(rt; "{fault:?}"),
    }
}
