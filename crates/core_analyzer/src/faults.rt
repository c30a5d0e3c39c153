// Where bytes are first wrong.

ghost use Rattle.std.specs.Prelude.{◌≡◌, ◌<◌, ◌≤◌, ◌^◌, None, drop, length};
ghost use Rattle.core_analyzer.specs.Dumps.{is_next};
ghost use Rattle.core_analyzer.specs.DumpFields.{event_fields, fields_of_events, fields_of_lines, first_wrong, has_magic, header_fields, line_fields, log_fields};
ghost use Rattle.recording_bytes.specs.Fields.{wrong_among};

use crate::dump::{COUNT, EVENT, HEADER, LINE, MAGIC};
use crate::reading::{read_count, read_event};
use limits::CHANNELS;
use rtio_types::Event;

/// Where the first wrong field begins: one that is cut off or out of its range, or the end, where bytes follow it.
pub fn first_wrong(bytes: &[u8]) -> Option<u64>
    ensures { result ≡ first_wrong bytes.now }
{
    if let Some(offset) = wrong_in_header(bytes) {
        return Some(offset);
    }
    let count = read_count(&bytes[12..]);
    if let Some(offset) = wrong_in_events(count, bytes) {
        return Some(offset);
    }
    wrong_in_log(HEADER + EVENT * count as usize, bytes)
}

// Of the letters, the counter and the number of events.
fn wrong_in_header(bytes: &[u8]) -> Option<u64>
    ensures { result ≡ wrong_among (header_fields bytes.now) }
{
    if bytes.len() < 4 || !has_magic(bytes) {
        Some(0)
    } else if bytes.len() < 12 {
        Some(4)
    } else if bytes.len() < HEADER {
        Some(12)
    } else {
        None
    }
}

fn has_magic(bytes: &[u8]) -> bool
    requires { 4 ≤ length bytes.now }
    ensures { result ≡ has_magic bytes.now }
{
    bytes[0] == MAGIC[0] && bytes[1] == MAGIC[1] && bytes[2] == MAGIC[2] && bytes[3] == MAGIC[3]
}

// Of so many events behind the header.
fn wrong_in_events(count: u32, bytes: &[u8]) -> Option<u64>
    requires { 16 ≤ length bytes.now }
    ensures { result ≡ wrong_among (fields_of_events 16 None count (drop 16 bytes.now)) }
{
    let mut at = HEADER;
    let mut before = None;
    for _ in 0..count {
        let rest = &bytes[at..];
        if let Some(offset) = wrong_in_event(at as u64, before, rest) {
            return Some(offset);
        }
        before = Some(read_event(rest));
        at += EVENT;
    }
    None
}

// Of the channel, address, data and stamp of an event behind another one.
fn wrong_in_event(place: u64, before: Option<Event>, bytes: &[u8]) -> Option<u64>
    requires { place < 2 ^ 63 }
    ensures { result ≡ wrong_among (event_fields place before bytes.now) }
{
    let len = bytes.len();
    if len < 1 || CHANNELS <= bytes[0] as usize {
        Some(place)
    } else if len < 2 {
        Some(place + 1)
    } else if len < 6 {
        Some(place + 2)
    } else if len < EVENT || !is_next(before, read_event(bytes)) {
        Some(place + 6)
    } else {
        None
    }
}

/// Whether the stamp is at least 0, and rises.
pub fn is_next(before: Option<Event>, event: Event) -> bool
    ensures { result ≡ is_next before event }
{
    0 <= event.stamp
        && match before {
            Some(earlier) => (earlier.stamp, earlier.channel) < (event.stamp, event.channel),
            None => true,
        }
}

// Of the number of lines, which begins at a place, the lines, and the end.
fn wrong_in_log(at: usize, bytes: &[u8]) -> Option<u64>
    requires { at ≤ length bytes.now }
    ensures { result ≡ wrong_among (log_fields at (drop at bytes.now)) }
{
    let log = &bytes[at..];
    if log.len() < COUNT {
        return Some(at as u64);
    }
    wrong_in_lines(at + COUNT, read_count(log), bytes)
}

// Of so many lines from a place on, and the end.
fn wrong_in_lines(from: usize, count: u32, bytes: &[u8]) -> Option<u64>
    requires { from ≤ length bytes.now }
    ensures { result ≡ wrong_among (fields_of_lines from count (drop from bytes.now)) }
{
    let mut at = from;
    for _ in 0..count {
        if let Some(offset) = wrong_in_line(at as u64, &bytes[at..]) {
            return Some(offset);
        }
        at += LINE;
    }
    if at == bytes.len() {
        None
    } else {
        Some(at as u64)
    }
}

// Of the kind, number, channel, address, data and stamp of a line.
fn wrong_in_line(place: u64, bytes: &[u8]) -> Option<u64>
    requires { place < 2 ^ 63 }
    ensures { result ≡ wrong_among (line_fields place bytes.now) }
{
    let len = bytes.len();
    if len < 1 || 4 <= bytes[0] {
        Some(place)
    } else if len < 9 {
        Some(place + 1)
    } else if len < 10 || CHANNELS <= bytes[9] as usize {
        Some(place + 9)
    } else if len < 11 {
        Some(place + 10)
    } else if len < 15 {
        Some(place + 11)
    } else if len < LINE {
        Some(place + 15)
    } else {
        None
    }
}
