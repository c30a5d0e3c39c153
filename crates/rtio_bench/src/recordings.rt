// Recordings that are looked up by name and by handle.

ghost use Rattle.std.specs.Prelude.{◌≡◌, ◌<◌, ◌≤◌, Some, IfOk, IfSome, IsSome, IsTrue};
ghost use Rattle.dma_store.specs.Kept.{is_playable};
ghost use Rattle.rtio_bench.specs.Lookup.{length_handled, length_named, letter_of, name_of, recording_of};
ghost use Rattle.rtio_bench.specs.Sums.{lengths_sum};

use dma_store::Store;
use rtio_types::{Event, Name, Recording};
use std::alloc::{AllocError, Global};

/// Sums of the lengths of recordings, in mu, that were found by name and by handle.
#[derive(Clone, Copy)]
pub struct Lengths {
    /// Found by name.
    pub by_name: u64,
    /// Found by handle.
    pub by_handle: u64,
}

/// Saves so many recordings and looks up each: the sums of their lengths; None where one is lost or there is no memory.
#[tactic(auto, using(crate::proofs::Sums::lengths_more, crate::proofs::Sums::lengths_bound))]
pub fn lengths_found(alloc: Global, count: u16) -> Option<Lengths>
    requires { count ≤ 4096 }
    ensures by_name { IfSome result (λ lengths. lengths.by_name ≡ lengths_sum count) }
    ensures by_handle { IfSome result (λ lengths. lengths.by_handle ≡ lengths_sum count) }
{
    let store = store_of(alloc, count)?;
    let mut by_name: u64 = 0;
    let mut by_handle: u64 = 0;
    for number in 0..count {
        let name = name_of(number)?;
        by_name += if_length_of(number, length_by_name(alloc, &store, &name)?)?;
        by_handle += if_length_of(number, length_by_handle(alloc, &store, &name)?)?;
    }
    Some(Lengths { by_name, by_handle })
}

// The length of the recording of a number, if that is what was found.
fn if_length_of(number: u16, found: i64) -> Option<u64>
    ensures { IfSome result (λ length. length ≡ number) }
{
    let length = u64::from(number);
    if found == length as i64 {
        Some(length)
    } else {
        None
    }
}

// The recordings from the first on, each under its name.
fn store_of(alloc: Global, count: u16) -> Option<Store>
    requires { count ≤ 4096 }
{
    let mut store = Store::new(alloc);
    for number in 0..count {
        let recording = recording_of(alloc, number).ok()?;
        store.save(alloc, &name_of(number)?, &recording).ok()?;
    }
    Some(store)
}

// A name of three letters, another one for each number.
fn name_of(number: u16) -> Option<Name>
    requires { number < 4096 }
    ensures there { IsSome result }
    ensures value { IfSome result (λ name. name ≡ name_of number) }
{
    Name::read(&[
        letter_of(number / 256),
        letter_of(number / 16),
        letter_of(number),
    ])
}

fn letter_of(digit: u16) -> u8
    ensures { result ≡ letter_of digit }
{
    b'a' + (digit % 16) as u8
}

// A pulse on `ttl0` in a block as long as the number.
fn recording_of(alloc: Global, number: u16) -> Result<Recording, AllocError>
    ensures value { IfOk result (λ recording. recording ≡ recording_of number) }
    ensures playable { IfOk result (λ recording. IsTrue (is_playable recording)) }
{
    let on = Event {
        channel: 0,
        address: 0,
        value: 1,
        stamp: 0,
    };
    let off = Event {
        channel: 0,
        address: 0,
        value: 0,
        stamp: i64::from(number),
    };
    Ok(Recording {
        events: vec![in alloc; on, off]?,
        length: i64::from(number),
    })
}

fn length_by_name(alloc: Global, store: &Store, name: &Name) -> Option<i64>
    ensures { IfSome result (λ length. length_named store.now name.now ≡ Some length) }
{
    Some(store.read(alloc, name).ok()?.length)
}

fn length_by_handle(alloc: Global, store: &Store, name: &Name) -> Option<i64>
    ensures { IfSome result (λ length. length_handled store.now name.now ≡ Some length) }
{
    let handle = store.handle(name).ok()?;
    Some(store.read_handle(alloc, handle).ok()?.length)
}
