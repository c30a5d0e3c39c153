// Events and recordings, as a table writes them.

use rtio_types::{Edge, Event, Recording};
use std::alloc::{AllocError, Global};

/// The event that is written `CHANNEL.ADDRESS=VALUE@STAMP`.
pub fn event_of(text: &str) -> Option<Event> {
    let (channel, rest) = text.split_once('.')?;
    let (address, rest) = rest.split_once('=')?;
    let (value, stamp) = rest.split_once('@')?;
    Some(Event {
        channel: channel.parse().ok()?,
        address: address.parse().ok()?,
        value: value.parse().ok()?,
        stamp: stamp.parse().ok()?,
    })
}

/// The rising edge that is written `CHANNEL@STAMP`.
pub fn edge_of(text: &str) -> Option<Edge> {
    let (channel, stamp) = text.split_once('@')?;
    Some(Edge {
        channel: channel.parse().ok()?,
        stamp: stamp.parse().ok()?,
        rising: true,
    })
}

/// A recording of 80 mu with the events that are written between blanks; None for want of memory too.
pub fn recording_of(alloc: Global, words: &str) -> Option<Recording> {
    let mut events = Vec::new(alloc);
    for word in words.split(' ') {
        events.push(event_of(word)?).ok()?;
    }
    Some(Recording { events, length: 80 })
}

/// The numbers that are written between blanks; other words are left out. Fails only for want of memory.
pub fn numbers_of(alloc: Global, words: &str) -> Result<Vec<i64>, AllocError> {
    let mut numbers = Vec::new(alloc);
    for word in words.split(' ') {
        if let Ok(number) = word.parse() {
            numbers.push(number)?;
        }
    }
    Ok(numbers)
}
