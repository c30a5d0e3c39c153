// Replies, as a table writes them.

use rtio_types::{Event, Recording, Reply};
use std::alloc::{AllocError, Global};

/// Pushes replies that are written between commas; `all done` are 32 of `done`, and what is no reply counts as full.
pub fn push_replies(
    alloc: Global,
    replies: &mut Vec<Reply>,
    words: &str,
) -> Result<(), AllocError> {
    if words == "all done" {
        for _request in 0..32u32 {
            replies.push(Reply::Done)?;
        }
        return Ok(());
    }
    for word in words.split(", ") {
        replies.push(reply_of(alloc, word)?)?;
    }
    Ok(())
}

fn reply_of(alloc: Global, word: &str) -> Result<Reply, AllocError> {
    let (kind, rest) = word.split_once(' ').unwrap_or((word, ""));
    Ok(match kind {
        "done" => Reply::Done,
        "underflow" => Reply::Underflow,
        "overflow" => Reply::Overflow,
        "old" => Reply::OldHandle,
        "no" if rest == "edge" => Reply::NoEdge,
        "no" => Reply::NoTrace,
        "time" => Reply::Time(number_of(rest)),
        "stamp" => Reply::Stamp(number_of(rest)),
        "handle" => Reply::Handle(number_of(rest)),
        "trace" => Reply::Trace(recording_of(alloc, rest)?),
        _ => Reply::Full,
    })
}

fn number_of(word: &str) -> i64 {
    word.parse().unwrap_or(0)
}

// A recording's length, and its events behind colons.
fn recording_of(alloc: Global, words: &str) -> Result<Recording, AllocError> {
    let mut parts = words.split(": ");
    let length = number_of(parts.next().unwrap_or(""));
    let mut events = Vec::new(alloc);
    for part in parts {
        if let Some(event) = event_of(part) {
            events.push(event)?;
        }
    }
    Ok(Recording { events, length })
}

fn event_of(words: &str) -> Option<Event> {
    let mut words = words.split(' ');
    Some(Event {
        channel: words.next()?.parse().ok()?,
        address: words.next()?.parse().ok()?,
        value: words.next()?.parse().ok()?,
        stamp: words.next()?.parse().ok()?,
    })
}
