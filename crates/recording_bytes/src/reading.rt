// The recording that bytes spell.

ghost use Rattle.std.specs.Prelude.{◌≡◌, ◌↔◌, ◌+◌, ◌≤◌, ℕ, Some, None, drop, length, pos, IfOk, MatchResult};
ghost use Rattle.rtio_types.specs.Recordings.{Recorded};
ghost use Rattle.recording_bytes.specs.Spelling.{IsSpelling};
ghost use Rattle.recording_bytes.specs.Fields.{event_fields, fields_of_events, first_wrong, wrong_among};
ghost use Rattle.recording_bytes.specs.Reading.{count_read, data_width, event_read, events_read, fixed_read, format_read, length_read, short_read, step_width};

use crate::faults::first_wrong;
use crate::format::{FIXED, FRONT, Format, HEADER, data_width, event_size, step_width};
use crate::numbers::{read_number, unfolded};
use rtio_types::{Event, Recording};
use std::alloc::{AllocError, Global};

/// Why bytes give no recording.
#[derive(Clone, Copy, Debug, PartialEq, Eq)]
pub enum DmaEnd {
    /// The place, from 0, where the first field begins that is cut off or out of its range, or where bytes follow the last.
    Fault { offset: u64 },
    /// Want of memory.
    Memory,
}

impl From<AllocError> for DmaEnd {
    ghost use Rattle.std.specs.Prelude.{◌≡◌};
    ghost use Rattle.recording_bytes.specs.declared.reading.DmaEnd.TheVariants.{Memory};

    ghost from_gives = { λ _ end. end ≡ Memory };

    fn from(_: AllocError) -> DmaEnd {
        DmaEnd::Memory
    }
}

/// The recording that bytes spell, in either format. The first wrong field is found before any memory is taken, so the
/// memory is never more than the bytes' events need.
pub fn decode(alloc: Global, bytes: &[u8]) -> Result<Recording, DmaEnd>
    ensures ok { IfOk result (λ recording. IsSpelling bytes.now recording) }
    ensures only { (recording : Recorded) → IsSpelling bytes.now recording →
        MatchResult result (λ found. found ≡ recording) (λ end. end ≡ DmaEnd.Memory) }
    ensures fault { (offset : ℕ) → (result ≡ Err (DmaEnd.Fault offset)) ↔ (first_wrong bytes.now ≡ Some offset) }
{
    if let Some(offset) = first_wrong(bytes) {
        return Err(DmaEnd::Fault { offset });
    }
    let events = read_events(alloc, read_format(bytes), read_count(bytes), bytes)?;
    Ok(Recording {
        events,
        length: read_length(bytes),
    })
}

/// The format that the first byte says.
pub fn read_format(bytes: &[u8]) -> Format
    requires { 1 ≤ length bytes.now }
    ensures { result ≡ format_read bytes.now }
{
    if bytes[0] == FIXED {
        Format::Fixed
    } else {
        Format::Short
    }
}

/// The number of events.
pub fn read_count(bytes: &[u8]) -> u32
    requires { 13 ≤ length bytes.now }
    ensures { result ≡ count_read bytes.now }
{
    u32::from_le_bytes([bytes[1], bytes[2], bytes[3], bytes[4]])
}

fn read_length(bytes: &[u8]) -> i64
    requires { 13 ≤ length bytes.now }
    ensures { result ≡ length_read bytes.now }
{
    i64::from_le_bytes([
        bytes[5], bytes[6], bytes[7], bytes[8], bytes[9], bytes[10], bytes[11], bytes[12],
    ])
}

// So many events behind the header.
fn read_events(
    alloc: Global,
    format: Format,
    count: u32,
    bytes: &[u8],
) -> Result<Vec<Event>, AllocError>
    requires header { 13 ≤ length bytes.now }
    requires right { wrong_among (fields_of_events format 13 count (drop 13 bytes.now)) ≡ None }
    ensures { IfOk result (λ events. events.items ≡ events_read format (pos 0) count (drop 13 bytes.now)) }
{
    let mut events = Vec::with_capacity(alloc, count as usize)?;
    let mut before = 0;
    let mut at = HEADER;
    for _ in 0..count {
        let rest = &bytes[at..];
        let event = read_event(format, before, rest);
        events.push(event)?;
        before = event.stamp;
        at += event_size(format, rest);
    }
    Ok(events)
}

// The event at the front, behind one with the stamp `before`.
fn read_event(format: Format, before: i64, bytes: &[u8]) -> Event
    requires { wrong_among (event_fields format 0 bytes.now) ≡ None }
    ensures { result ≡ event_read format before bytes.now }
{
    match format {
        Format::Fixed => read_fixed(bytes),
        Format::Short => read_short(before, bytes),
    }
}

fn read_fixed(bytes: &[u8]) -> Event
    requires { 14 ≤ length bytes.now }
    ensures { result ≡ fixed_read bytes.now }
{
    Event {
        channel: bytes[0],
        address: bytes[1],
        value: u32::from_le_bytes([bytes[2], bytes[3], bytes[4], bytes[5]]),
        stamp: i64::from_le_bytes([
            bytes[6], bytes[7], bytes[8], bytes[9], bytes[10], bytes[11], bytes[12], bytes[13],
        ]),
    }
}

fn read_short(before: i64, bytes: &[u8]) -> Event
    requires front { 3 ≤ length bytes.now }
    requires room { 3 + data_width bytes.now + step_width bytes.now ≤ length bytes.now }
    requires widths { (data_width bytes.now ≤ 4) × (step_width bytes.now ≤ 8) }
    ensures { result ≡ short_read before bytes.now }
{
    let (data, step) = bytes[FRONT..].split_at(data_width(bytes));
    let distance = unfolded(read_number(&step[..step_width(bytes)]));
    Event {
        channel: bytes[0],
        address: bytes[1],
        value: read_number(data) as u32,
        stamp: before.wrapping_add(distance),
    }
}
