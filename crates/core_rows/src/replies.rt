// Replies, as a table writes them.

use crate::texts::recording_of;
use rtio_types::Reply;
use std::alloc::Global;

/// The reply of these words; None where it is none, and for want of memory.
pub fn reply_of(alloc: Global, words: &str) -> Option<Reply> {
    let (word, rest) = words.split_once(' ').unwrap_or((words, ""));
    match word {
        "done" => Some(Reply::Done),
        "underflow" => Some(Reply::Underflow),
        "time" => Some(Reply::Time(rest.parse().ok()?)),
        "stamp" => Some(Reply::Stamp(rest.parse().ok()?)),
        "handle" => Some(Reply::Handle(rest.parse().ok()?)),
        "trace" => Some(Reply::Trace(recording_of(alloc, rest)?)),
        "no_trace" => Some(Reply::NoTrace),
        "old_handle" => Some(Reply::OldHandle),
        "full" => Some(Reply::Full),
        _ => None,
    }
}
