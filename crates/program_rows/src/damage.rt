// Runs on damaged bytes.

use crate::asked::run_named;
use crate::case::Case;
use crate::ranges::Ranges;
use std::alloc::{AllocError, Global};
use std::sync::Wait;
use std::thread::Threads;
use table_rows::push_answer;

// How bytes are damaged at a place.
#[derive(Clone, Copy)]
enum Damage {
    // They end there.
    Cut,
    // The byte there is this one.
    Set(u8),
    // In the byte there these bits are turned.
    Flip(u8),
}

/// Pushes the answers of runs in each of which the recording, if the words ask for one, or else the source's text is damaged, as the
/// first word says, at one place. Fails only for want of memory.
pub fn push_damage<R: Threads + Wait + Sync>(
    rt: &R,
    alloc: Global,
    case: &mut Case,
    how: &str,
    words: &str,
    told: &mut String,
) -> Result<(), AllocError> {
    let Some(damage) = damage_of(how) else {
        return push_answer(told, "no damage");
    };
    let of_recording = words == "recording" || words.contains("HEX");
    let whole = bytes_of(case, of_recording)?;
    let mut ranges = Ranges::new(false);
    for place in 0..whole.len() {
        let damaged = damaged(alloc, &whole, damage, place)?;
        put(case, of_recording, damaged);
        let line = run_named(rt, alloc, case, words)?.line(alloc)?;
        ranges.take(told, place as u64, line)?;
    }
    put(case, of_recording, whole);
    ranges.close(told)
}

// The recording, or the source's text.
fn bytes_of(case: &Case, of_recording: bool) -> Result<Vec<u8>, AllocError> {
    if of_recording {
        case.recording.clone()
    } else {
        case.text.clone()
    }
}

fn damage_of(how: &str) -> Option<Damage> {
    if how == "cut" {
        return Some(Damage::Cut);
    }
    let (verb, number) = how.split_once(' ')?;
    let number = number.parse().ok()?;
    match verb {
        "set" => Some(Damage::Set(number)),
        "flip" => Some(Damage::Flip(number)),
        _ => None,
    }
}

// The bytes, damaged at a place.
fn damaged(
    alloc: Global,
    bytes: &[u8],
    damage: Damage,
    place: usize,
) -> Result<Vec<u8>, AllocError> {
    let mut damaged = bytes.to_vec(alloc)?;
    if place < damaged.len() {
        match damage {
            Damage::Cut => damaged.truncate(place),
            Damage::Set(byte) => damaged[place] = byte,
            Damage::Flip(bits) => damaged[place] ^= bits,
        }
    }
    Ok(damaged)
}

// Puts bytes in the place of the recording, or of the source's text.
fn put(case: &mut Case, of_recording: bool, bytes: Vec<u8>) {
    if of_recording {
        case.recording = bytes;
    } else {
        case.text = bytes;
    }
}
