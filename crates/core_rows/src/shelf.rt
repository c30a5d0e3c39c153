// A store of recordings, and the bytes of one.

ghost use Rattle.std.specs.Prelude.{◌<◌, IfOk, IsTrue};
ghost use Rattle.dma_store.specs.Kept.{is_playable};

use crate::settings::bytes_of;
use crate::telling::tell_recording;
use dma_store::{DmaEnd, Store, decode, encode};
use rtio_types::{Event, Name, Recording};
use std::alloc::{AllocError, Global};

// A pulse of 50 mu on channel 0, in a block of 80 mu.
const ON: Event = Event {
    channel: 0,
    address: 0,
    value: 1,
    stamp: 0,
};

const OFF: Event = Event {
    channel: 0,
    address: 0,
    value: 0,
    stamp: 50,
};

fn pulse(alloc: Global) -> Result<Recording, AllocError>
    ensures { IfOk result (λ recording. IsTrue (is_playable recording)) }
{
    Ok(Recording {
        events: vec![in alloc; ON, OFF]?,
        length: 80,
    })
}

fn is_pulse(recording: &Recording) -> bool {
    recording.events.as_slice() == [ON, OFF].as_slice() && recording.length == 80
}

/// A store into which the pulse is handed in under this name; an empty one where the text is no name.
pub fn store_of(alloc: Global, text: &str) -> Result<Store, AllocError> {
    let mut store = Store::new(alloc);
    if let Some(name) = Name::read(text.as_bytes()) {
        store.hand_in(alloc, &name, &pulse(alloc)?)?;
    }
    Ok(store)
}

/// Tells the answer to a call of a store. Fails only for want of memory.
pub fn tell_store(
    alloc: Global,
    told: &mut String,
    store: &mut Store,
    verb: &str,
    rest: &str,
) -> Result<(), AllocError> {
    match verb {
        "names" => tell_names(told, store),
        "fill" => fill(alloc, told, store),
        "read_handle" => {
            let found = store.read_handle(alloc, rest.parse().unwrap_or(0));
            write!(told, "{:?}", found.map(|kept| is_pulse(&kept)))
        }
        _ => match Name::read(rest.as_bytes()) {
            Some(name) => tell_named(alloc, told, store, verb, &name),
            None => told.push_str("no name"),
        },
    }
}

fn tell_named(
    alloc: Global,
    told: &mut String,
    store: &mut Store,
    verb: &str,
    name: &Name,
) -> Result<(), AllocError> {
    match verb {
        "save" => {
            let recording = pulse(alloc)?;
            write!(told, "{:?}", store.save(alloc, name, &recording))
        }
        "handle" => write!(told, "{:?}", store.handle(name)),
        "read" => {
            let found = store.read(alloc, name);
            write!(told, "{:?}", found.map(|kept| is_pulse(&kept)))
        }
        "erase" => write!(told, "{:?}", store.erase(name)),
        _ => told.push_str("no call"),
    }
}

// The names of a store in its order.
fn tell_names(told: &mut String, store: &Store) -> Result<(), AllocError> {
    for position in 0..=store.len() {
        match store.name_at(position) {
            Some(name) => {
                told.push_str(str::from_utf8(name.bytes()).unwrap_or("?"))?;
                told.push(' ')?;
            }
            None => told.push_str("end")?,
        }
    }
    Ok(())
}

// A name of three letters for each number.
fn numbered(number: u16) -> Option<Name>
    requires { number < 4096 }
{
    let letter = |digit: u16| b'a' + (digit % 16) as u8;
    Name::read(&[letter(number / 256), letter(number / 16), letter(number)])
}

// Saves the pulse under 4,096 names, and says how many were saved.
fn fill(alloc: Global, told: &mut String, store: &mut Store) -> Result<(), AllocError> {
    let recording = pulse(alloc)?;
    let mut saved = 0u32;
    for number in 0..4096 {
        if let Some(name) = numbered(number) {
            if store.save(alloc, &name, &recording).is_ok() {
                saved = saved.saturating_add(1);
            }
        }
    }
    write!(told, "{saved}")
}

/// Tells the answer to a call of the bytes of a row that has said these lines: what recording they spell, or their first wrong field; or the
/// bytes of a recording. Fails only for want of memory.
pub fn tell_bytes(
    alloc: Global,
    told: &mut String,
    said: &str,
    verb: &str,
) -> Result<(), AllocError> {
    let bytes = bytes_of(alloc, said)?;
    match verb {
        "pulse" => tell_pulse(alloc, told),
        "encode" => tell_encoded_again(alloc, told, &bytes),
        _ => tell_decoded(alloc, told, &bytes),
    }
}

fn tell_pulse(alloc: Global, told: &mut String) -> Result<(), AllocError> {
    let recording = pulse(alloc)?;
    tell_encoded(alloc, told, &recording)
}

fn tell_decoded(alloc: Global, told: &mut String, bytes: &[u8]) -> Result<(), AllocError> {
    match decode(alloc, bytes) {
        Ok(recording) => tell_recording(told, &recording),
        Err(DmaEnd::Fault { offset }) => write!(told, "fault {offset}"),
        Err(DmaEnd::Memory) => Err(AllocError),
    }
}

// The bytes of the recording that these spell.
fn tell_encoded_again(alloc: Global, told: &mut String, bytes: &[u8]) -> Result<(), AllocError> {
    match decode(alloc, bytes) {
        Ok(recording) => tell_encoded(alloc, told, &recording),
        Err(_) => told.push_str("no recording"),
    }
}

fn tell_encoded(alloc: Global, told: &mut String, recording: &Recording) -> Result<(), AllocError>
    requires { IsTrue (is_playable recording.now) }
{
    let bytes = encode(alloc, recording)?;
    push_digits(told, &bytes)
}

fn push_digits(told: &mut String, bytes: &[u8]) -> Result<(), AllocError> {
    let mut is_first = true;
    for byte in bytes {
        if !is_first {
            told.push(' ')?;
        }
        is_first = false;
        write!(told, "{byte:02x}")?;
    }
    Ok(())
}
