// A recording as bytes.

ghost use Rattle.std.specs.Prelude.{◌≡◌, ◌++◌, FitsSigned, IsTrue, IfOk, OnOk};
ghost use Rattle.std.specs.Int.{w64};
ghost use Rattle.recording_bytes.specs.Playable.{is_playable};
ghost use Rattle.recording_bytes.specs.Spelling.{IsSpellingIn, FitsFields, header_spelling, short_spelling};
ghost use Rattle.recording_bytes.specs.declared.format.Format.TheVariants.{Short};

use crate::format::{FRONT, HEADER, SHORT};
use crate::numbers::{bytes_needed, folded, write_number};
use rtio_types::{Event, Recording};
use std::alloc::{AllocError, Global};

/// The bytes of a recording in format 2. The first byte says the format; the number of events and the recording's length
/// follow, low bytes first, and then each event: channel, address, a byte with the width of its data in the low half and
/// that of its step in the high half, the data, and the step, which says how far its stamp is from the one before. The
/// format is this project's own. The only error is want of memory.
pub fn encode(alloc: Global, recording: &Recording) -> Result<Vec<u8>, AllocError>
    requires { IsTrue (is_playable recording.now) }
    ensures { IfOk result (λ bytes. IsSpellingIn Short bytes.items recording.now) }
{
    let count = recording.events.len();
    let mut bytes = Vec::with_capacity(alloc, HEADER + FRONT * count)?;
    write_header(&mut bytes, count as u32, recording.length)?;
    let mut before = 0;
    for event in &recording.events {
        write_event(&mut bytes, before, event)?;
        before = event.stamp;
    }
    Ok(bytes)
}

fn write_header(bytes: &mut Vec<u8>, count: u32, length: i64) -> Result<(), AllocError>
    ensures written { OnOk result (bytes.new.items ≡ bytes.old.items ++ header_spelling Short count length) }
    ensures fits { FitsSigned w64 length }
{
    bytes.push(SHORT)?;
    bytes.extend_from_slice(&count.to_le_bytes())?;
    bytes.extend_from_slice(&length.to_le_bytes())?;
    Ok(())
}

// Writes an event behind one with the stamp `before`.
fn write_event(bytes: &mut Vec<u8>, before: i64, event: &Event) -> Result<(), AllocError>
    ensures written { OnOk result (bytes.new.items ≡ bytes.old.items ++ short_spelling before event.now) }
    ensures fits { OnOk result (FitsFields event.now) }
{
    let data = u64::from(event.value);
    let step = folded(event.stamp.wrapping_sub(before));
    let widths = bytes_needed(data) + 16 * bytes_needed(step);
    bytes.extend_from_slice(&[event.channel, event.address, widths])?;
    write_number(bytes, data)?;
    write_number(bytes, step)?;
    Ok(())
}
