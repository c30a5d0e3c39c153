// Recordings, as a table writes them.

use crate::left::Left;
use dma_store::{DmaEnd, decode};
use rtio_types::Recording;
use std::alloc::{AllocError, Global};

/// Reads bytes as a recording: its length and its events go out, and where the bytes are none the place of their first wrong field
/// goes to err. Fails only for want of memory.
pub fn read_recording(alloc: Global, bytes: &[u8]) -> Result<Left, AllocError> {
    let mut out = String::new(alloc);
    let mut err = String::new(alloc);
    let status = match decode(alloc, bytes) {
        Ok(recording) => {
            push_recording(&mut out, &recording)?;
            0
        }
        Err(DmaEnd::Fault { offset }) => {
            write!(err, "fault {offset}\n")?;
            1
        }
        Err(DmaEnd::Memory) => return Err(AllocError),
    };
    Ok(Left {
        status,
        out: out.into_bytes(),
        err: err.into_bytes(),
    })
}

fn push_recording(out: &mut String, recording: &Recording) -> Result<(), AllocError> {
    let length = recording.length;
    write!(out, "{length}:")?;
    for event in &recording.events {
        let (channel, address) = (event.channel, event.address);
        let (value, stamp) = (event.value, event.stamp);
        write!(out, " {channel}.{address}={value}@{stamp}")?;
    }
    out.push('\n')
}
