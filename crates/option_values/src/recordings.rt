// Recordings in words.

ghost use Rattle.std.specs.Prelude.{◌≡◌, MatchResult};
ghost use Rattle.std.specs.List.{list_all};
ghost use Rattle.option_values.specs.Readings.{Reads};
ghost use Rattle.option_values.specs.Lists.{bytes_of, is_hex_digit, named_by, named_of, recording_in, recordings_of};

use crate::end::ValueEnd;
use hex::FromHexError;
use recording_bytes::{DmaEnd, decode};
use rtio_core::{Named, NamedList};
use rtio_types::{Name, Recording};
use std::alloc::Global;

/// The recordings that `NAME:HEX` say, one or more, joined by commas. The digits are in lower case, and they spell the
/// recording in either format. Whether the names are different, and how many recordings there are, isn't asked.
pub fn read_recordings(alloc: Global, text: &str) -> Result<NamedList, ValueEnd>
    ensures { Reads (recordings_of text.now) result }
{
    let mut recordings = Vec::new(alloc);
    for part in text.split(',') {
        let recording = named_of(alloc, part)?;
        recordings.push(recording)?;
    }
    Ok(NamedList::of(recordings))
}

fn named_of(alloc: Global, text: &str) -> Result<Named, ValueEnd>
    ensures { Reads (named_of text.now) result }
{
    match text.split_once(':') {
        Some((name, digits)) => named_by(alloc, name, digits),
        None => Err(ValueEnd::Refused),
    }
}

fn named_by(alloc: Global, name: &str, digits: &str) -> Result<Named, ValueEnd>
    ensures { Reads (named_by name.now digits.now) result }
{
    match Name::read(name.as_bytes()) {
        Some(name) => {
            let bytes = bytes_of(alloc, digits)?;
            let recording = recording_in(alloc, bytes.as_slice())?;
            Ok(Named { name, recording })
        }
        None => Err(ValueEnd::Refused),
    }
}

// The bytes of the digits.
fn bytes_of(alloc: Global, text: &str) -> Result<Vec<u8>, ValueEnd>
    ensures { MatchResult result (λ bytes. bytes_of text.now ≡ Some bytes.items) (λ end. end ≡ ValueEnd.Refused → bytes_of text.now ≡ None) }
{
    if !are_hex_digits(text.as_bytes()) {
        return Err(ValueEnd::Refused);
    }
    match hex::decode(alloc, text.as_bytes()) {
        Ok(bytes) => Ok(bytes),
        Err(FromHexError::OutOfMemory) => Err(ValueEnd::Memory),
        Err(_) => Err(ValueEnd::Refused),
    }
}

fn are_hex_digits(bytes: &[u8]) -> bool
    ensures { result ≡ list_all is_hex_digit bytes.now }
{
    bytes.iter().all(|byte| is_hex_digit(*byte))
}

fn is_hex_digit(byte: u8) -> bool
    ensures { result ≡ is_hex_digit byte }
{
    matches!(byte, b'0'..=b'9' | b'a'..=b'f')
}

// The recording that the bytes spell.
fn recording_in(alloc: Global, bytes: &[u8]) -> Result<Recording, ValueEnd>
    ensures { Reads (recording_in bytes.now) result }
{
    match decode(alloc, bytes) {
        Ok(recording) => Ok(recording),
        Err(DmaEnd::Fault { .. }) => Err(ValueEnd::Refused),
        Err(DmaEnd::Memory) => Err(ValueEnd::Memory),
    }
}
