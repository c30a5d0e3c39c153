// The dump that bytes spell.

ghost use Rattle.std.specs.Prelude.{◌≡◌, ◌↔◌, ◌+◌, ◌*◌, ◌≤◌, ℕ, Some, None, Err, drop, length, IfOk, MatchResult};
ghost use Rattle.recording_bytes.specs.Reading.{fixed_read};
ghost use Rattle.core_analyzer.specs.Dumps.{Dumped, IsSpelling};
ghost use Rattle.core_analyzer.specs.DumpReading.{count_read, dump_read, events_read, kind_read, line_read, lines_read, number_read};
ghost use Rattle.core_analyzer.specs.DumpFields.{first_wrong};

use crate::dump::{COUNT, Dump, DumpEnd, EVENT, HEADER, LINE};
use crate::faults::first_wrong;
use rtio_log::{LogKind, LogLine};
use rtio_types::Event;
use std::alloc::{AllocError, Global};

/// The dump that bytes spell. The first wrong field is found before any memory is taken, so the memory is never more than
/// what the bytes tell needs.
pub fn read_dump(alloc: Global, bytes: &[u8]) -> Result<Dump, DumpEnd>
    ensures ok { IfOk result (λ dump. IsSpelling bytes.now dump) }
    ensures only { (dump : Dumped) → IsSpelling bytes.now dump →
        MatchResult result (λ found. found ≡ dump) (λ end. end ≡ DumpEnd.Memory) }
    ensures fault { (offset : ℕ) → (result ≡ Err (DumpEnd.Fault offset)) ↔ (first_wrong bytes.now ≡ Some offset) }
{
    if let Some(offset) = first_wrong(bytes) {
        return Err(DumpEnd::Fault { offset });
    }
    Ok(read_right(alloc, bytes)?)
}

// The dump in bytes of which no field is wrong.
fn read_right(alloc: Global, bytes: &[u8]) -> Result<Dump, AllocError>
    requires { first_wrong bytes.now ≡ None }
    ensures { IfOk result (λ dump. dump ≡ dump_read bytes.now) }
{
    let counter = read_number(&bytes[4..]);
    let count = read_count(&bytes[12..]);
    let events = read_events(alloc, count, bytes)?;
    let log = HEADER + EVENT * count as usize;
    let lines = read_lines(alloc, log + COUNT, read_count_at(log, bytes), bytes)?;
    Ok(Dump {
        counter,
        events,
        lines,
    })
}

/// The number in the four bytes at the front.
pub fn read_count(bytes: &[u8]) -> u32
    requires { 4 ≤ length bytes.now }
    ensures { result ≡ count_read bytes.now }
{
    u32::from_le_bytes([bytes[0], bytes[1], bytes[2], bytes[3]])
}

// The number in the four bytes from a place on.
fn read_count_at(at: usize, bytes: &[u8]) -> u32
    requires { at + 4 ≤ length bytes.now }
    ensures { result ≡ count_read (drop at bytes.now) }
{
    read_count(&bytes[at..])
}

// The number in the eight bytes at the front.
fn read_number(bytes: &[u8]) -> u64
    requires { 8 ≤ length bytes.now }
    ensures { result ≡ number_read bytes.now }
{
    u64::from_le_bytes([
        bytes[0], bytes[1], bytes[2], bytes[3], bytes[4], bytes[5], bytes[6], bytes[7],
    ])
}

// So many events behind the header.
fn read_events(alloc: Global, count: u32, bytes: &[u8]) -> Result<Vec<Event>, AllocError>
    requires { 16 + 14 * count ≤ length bytes.now }
    ensures { IfOk result (λ events. events.items ≡ events_read count (drop 16 bytes.now)) }
{
    let mut events = Vec::with_capacity(alloc, count as usize)?;
    let mut at = HEADER;
    for _ in 0..count {
        events.push(read_event(&bytes[at..]))?;
        at += EVENT;
    }
    Ok(events)
}

/// The event at the front.
pub fn read_event(bytes: &[u8]) -> Event
    requires { 14 ≤ length bytes.now }
    ensures { result ≡ fixed_read bytes.now }
{
    Event {
        channel: bytes[0],
        address: bytes[1],
        value: u32::from_le_bytes([bytes[2], bytes[3], bytes[4], bytes[5]]),
        stamp: i64::from_le_bytes([
            bytes[6], bytes[7], bytes[8], bytes[9], bytes[10], bytes[11], bytes[12], bytes[13],
        ]),
    }
}

// So many lines from a place on.
fn read_lines(
    alloc: Global,
    from: usize,
    count: u32,
    bytes: &[u8],
) -> Result<Vec<LogLine>, AllocError>
    requires { from + 23 * count ≤ length bytes.now }
    ensures { IfOk result (λ lines. lines.items ≡ lines_read count (drop from bytes.now)) }
{
    let mut lines = Vec::with_capacity(alloc, count as usize)?;
    let mut at = from;
    for _ in 0..count {
        lines.push(read_line(&bytes[at..]))?;
        at += LINE;
    }
    Ok(lines)
}

fn read_line(bytes: &[u8]) -> LogLine
    requires { 23 ≤ length bytes.now }
    ensures { result ≡ line_read bytes.now }
{
    LogLine {
        kind: kind_of(bytes[0]),
        number: read_number(&bytes[1..]),
        event: read_event(&bytes[9..]),
    }
}

// The kind of a line's first byte, which is below 4.
fn kind_of(byte: u8) -> LogKind
    ensures { result ≡ kind_read byte }
{
    match byte {
        0 => LogKind::Sequence,
        1 => LogKind::Collision,
        2 => LogKind::Cleared,
        _ => LogKind::Busy,
    }
}
