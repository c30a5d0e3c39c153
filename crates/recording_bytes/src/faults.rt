// Where bytes are first wrong.

ghost use Rattle.std.specs.Prelude.{◌≡◌, ◌<◌, ◌≤◌, ◌^◌, length, drop};
ghost use Rattle.recording_bytes.specs.Fields.{event_fields, fields_of_events, first_wrong, fixed_fields, front_fields, header_fields, number_fields, short_fields, wrong_among};

use crate::format::{
    EVENT, FIXED, FRONT, Format, HEADER, SHORT, data_width, event_size, step_width,
};
use crate::numbers::is_short;
use crate::reading::{read_count, read_format};
use limits::CHANNELS;
use rtio_types::has_address;

/// Where the first wrong field begins: one that is cut off or out of its range, or the end, where bytes follow it.
pub fn first_wrong(bytes: &[u8]) -> Option<u64>
    ensures { result ≡ first_wrong bytes.now }
{
    if let Some(offset) = wrong_in_header(bytes) {
        return Some(offset);
    }
    wrong_in_events(read_format(bytes), read_count(bytes), bytes)
}

// Of the format, number of events and length.
fn wrong_in_header(bytes: &[u8]) -> Option<u64>
    ensures { result ≡ wrong_among (header_fields bytes.now) }
{
    if bytes.is_empty() || (bytes[0] != FIXED && bytes[0] != SHORT) {
        Some(0)
    } else if bytes.len() < 5 {
        Some(1)
    } else if bytes.len() < HEADER {
        Some(5)
    } else {
        None
    }
}

// Of so many events behind the header, and the end.
fn wrong_in_events(format: Format, count: u32, bytes: &[u8]) -> Option<u64>
    requires { 13 ≤ length bytes.now }
    ensures { result ≡ wrong_among (fields_of_events format 13 count (drop 13 bytes.now)) }
{
    let mut at = HEADER;
    for _ in 0..count {
        let rest = &bytes[at..];
        if let Some(offset) = wrong_in_event(format, at as u64, rest) {
            return Some(offset);
        }
        at += event_size(format, rest);
    }
    if at == bytes.len() {
        None
    } else {
        Some(at as u64)
    }
}

// Of the event that begins at a place; the bytes are those from there on.
fn wrong_in_event(format: Format, at: u64, bytes: &[u8]) -> Option<u64>
    requires { at < 2 ^ 63 }
    ensures { result ≡ wrong_among (event_fields format at bytes.now) }
{
    match format {
        Format::Fixed => wrong_in_fixed(at, bytes),
        Format::Short => wrong_in_short(at, bytes),
    }
}

// Of the channel, address, data and stamp.
fn wrong_in_fixed(at: u64, bytes: &[u8]) -> Option<u64>
    requires { at < 2 ^ 63 }
    ensures { result ≡ wrong_among (fixed_fields at bytes.now) }
{
    let len = bytes.len();
    if len < 1 || CHANNELS <= bytes[0] as usize {
        Some(at)
    } else if len < 2 || !has_address(bytes[0], bytes[1]) {
        Some(at + 1)
    } else if len < 6 {
        Some(at + 2)
    } else if len < EVENT {
        Some(at + 6)
    } else {
        None
    }
}

// Of the channel, address, widths, data and step.
fn wrong_in_short(at: u64, bytes: &[u8]) -> Option<u64>
    requires { at < 2 ^ 63 }
    ensures { result ≡ wrong_among (short_fields at bytes.now) }
{
    if let Some(offset) = wrong_in_front(at, bytes) {
        return Some(offset);
    }
    wrong_in_numbers(at, bytes)
}

// Of the channel, address and widths.
fn wrong_in_front(at: u64, bytes: &[u8]) -> Option<u64>
    requires { at < 2 ^ 63 }
    ensures { result ≡ wrong_among (front_fields at bytes.now) }
{
    let len = bytes.len();
    if len < 1 || CHANNELS <= bytes[0] as usize {
        Some(at)
    } else if len < 2 || !has_address(bytes[0], bytes[1]) {
        Some(at + 1)
    } else if len < FRONT || 4 < data_width(bytes) || 8 < step_width(bytes) {
        Some(at + 2)
    } else {
        None
    }
}

// Of the data and step, whose widths stand before them.
fn wrong_in_numbers(at: u64, bytes: &[u8]) -> Option<u64>
    requires at { at < 2 ^ 63 }
    requires front { 3 ≤ length bytes.now }
    ensures { result ≡ wrong_among (number_fields at bytes.now) }
{
    let numbers = &bytes[FRONT..];
    let data = data_width(bytes);
    if numbers.len() < data || !is_short(&numbers[..data]) {
        return Some(at + FRONT as u64);
    }
    let step = &numbers[data..];
    let width = step_width(bytes);
    if step.len() < width || !is_short(&step[..width]) {
        return Some(at + (FRONT + data) as u64);
    }
    None
}
