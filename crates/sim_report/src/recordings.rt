// The recordings that are kept, as text.

ghost use Rattle.std.specs.Prelude.{◌≡◌, ◌++◌, flat_map, slice_get, IfOk, IsTrue, OnOk, Some, string_bytes};
ghost use Rattle.dma_store.specs.Kept.{recording_named};
ghost use Rattle.recording_bytes.specs.Playable.{is_playable};
ghost use Rattle.sim_report.specs.Recordings.{IsKept, dma_text, recording_line};

use crate::key::text_of;
use dma_store::{FetchEnd, Store, encode};
use rtio_core::Core;
use rtio_types::{Name, Recording};
use std::alloc::{AllocError, Global};

// What the line of a recording of some events takes.
const LINE: usize = 64;

/// A line `dma NAME HEX` for each recording that is kept, in the order of the store: its name, and its bytes in format 2
/// as lower-case hex digits. The only error is want of memory.
pub fn dma_lines(alloc: Global, core: &Core) -> Result<Vec<u8>, AllocError>
    ensures { IfOk result (λ bytes. bytes.items ≡ dma_text core.now) }
{
    let store = core.store();
    // No two recordings that a core keeps have one name.
    let _known = core.history();
    let lines = store.len() as usize;
    let mut text = String::with_capacity(alloc, lines.saturating_mul(LINE))?;
    for position in 0..store.len() {
        let name = store.name_at(position).unwrap();
        let recording = read(alloc, store, name)?;
        write_recording(alloc, &mut text, name, &recording)?;
    }
    Ok(text.into_bytes())
}

// A copy of the recording of a name that is kept.
fn read(alloc: Global, store: &Store, name: &Name) -> Result<Recording, AllocError>
    requires { IsKept store.now name.now }
    ensures value { IfOk result (λ recording. recording_named store.now name.now ≡ Some recording) }
    ensures playable { IfOk result (λ recording. IsTrue (is_playable recording)) }
{
    match store.read(alloc, name) {
        Ok(recording) => Ok(recording),
        Err(FetchEnd::Memory) => Err(AllocError),
        Err(FetchEnd::NoTrace) => unreachable!(),
    }
}

// Appends the line of a recording.
fn write_recording(
    alloc: Global,
    text: &mut String,
    name: &Name,
    recording: &Recording,
) -> Result<(), AllocError>
    requires { IsTrue (is_playable recording.now) }
    ensures { OnOk result (string_bytes text.new ≡ string_bytes text.old ++ recording_line (name.now, recording.now)) }
{
    let name = text_of(name);
    let bytes = encode(alloc, recording)?;
    let digits = hex::encode(alloc, bytes.as_slice())?;
    writeln!(text, "dma {name} {digits}")
}
