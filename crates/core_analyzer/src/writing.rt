// A core's dump as bytes.

ghost use Rattle.std.specs.Prelude.{◌≡◌, ◌<◌, ◌^◌, ◌++◌, FitsSigned, IsTrue, IfOk, OnOk, length};
ghost use Rattle.std.specs.Int.{to_le_bytes, w32, w64};
ghost use Rattle.std.specs.List.{AllByRecursion};
ghost use Rattle.rtio_core.specs.Core.{IsCore};
ghost use Rattle.recording_bytes.specs.Spelling.{fixed_spelling};
ghost use Rattle.core_analyzer.specs.Dumps.{FitsEvent, FitsLine, IsSpelling, events_bytes, has_few_entries, header_bytes, kind_byte, line_bytes, lines_bytes};
ghost use Rattle.core_analyzer.specs.CoreDumps.{dump_of};

use crate::dump::{COUNT, EVENT, HEADER, LINE, MAGIC};
use rtio_core::Core;
use rtio_headline::what_is_put_out_was_submitted;
use rtio_log::{LogKind, LogLine};
use rtio_types::Event;
use std::alloc::{AllocError, Global};

/// Whether a core has put out fewer than 2^32 events and logged fewer than 2^32 lines, so that its dump has bytes.
pub fn has_few_entries(core: &Core) -> bool
    ensures { result ≡ has_few_entries (dump_of core.now) }
{
    core.trace().len() < 1 << 32 && core.log().len() < 1 << 32
}

/// The dump of a core: the letters `DUM1`, its counter in cycles, the number of the events put out, each of these, the number
/// of the log's lines, and each of these in the order of the log. An event has 14 bytes: channel, address, data and stamp, as
/// in format 1 of recordings. A line has 23: kind (0 out of sequence, 1 collided, 2 cleared, 3 busy), number and event. All
/// numbers have their low byte first. The bytes are this project's own. The only error is want of memory.
pub fn write_dump(alloc: Global, core: &Core) -> Result<Vec<u8>, AllocError>
    requires { IsTrue (has_few_entries (dump_of core.now)) }
    ensures { IfOk result (λ bytes. IsSpelling bytes.items (dump_of core.now)) }
{
    what_is_put_out_was_submitted();
    let _lawful = core.history();
    let events = core.trace();
    let lines = core.log();
    let room = HEADER + EVENT * events.len() + COUNT + LINE * lines.len();
    let mut bytes = Vec::with_capacity(alloc, room)?;
    write_header(&mut bytes, core.counter(), events.len() as u32)?;
    write_events(&mut bytes, events)?;
    bytes.extend_from_slice(&(lines.len() as u32).to_le_bytes())?;
    write_lines(&mut bytes, lines)?;
    Ok(bytes)
}

fn write_header(bytes: &mut Vec<u8>, counter: u64, count: u32) -> Result<(), AllocError>
    ensures written { OnOk result (bytes.new.items ≡ bytes.old.items ++ header_bytes counter count) }
    ensures fits { counter < 2 ^ 64 }
{
    bytes.extend_from_slice(&MAGIC)?;
    bytes.extend_from_slice(&counter.to_le_bytes())?;
    bytes.extend_from_slice(&count.to_le_bytes())?;
    Ok(())
}

fn write_events(bytes: &mut Vec<u8>, events: &[Event]) -> Result<(), AllocError>
    ensures written { OnOk result (bytes.new.items ≡ bytes.old.items ++ events_bytes events.now) }
    ensures fits { OnOk result (AllByRecursion FitsEvent events.now) }
{
    for event in events {
        write_event(bytes, event)?;
    }
    Ok(())
}

fn write_event(bytes: &mut Vec<u8>, event: &Event) -> Result<(), AllocError>
    ensures written { OnOk result (bytes.new.items ≡ bytes.old.items ++ fixed_spelling event.now) }
    ensures fits { OnOk result (FitsEvent event.now) }
{
    let Event {
        channel,
        address,
        value,
        stamp,
    } = *event;
    bytes.extend_from_slice(&[channel, address])?;
    bytes.extend_from_slice(&value.to_le_bytes())?;
    bytes.extend_from_slice(&stamp.to_le_bytes())?;
    Ok(())
}

fn write_lines(bytes: &mut Vec<u8>, lines: &[LogLine]) -> Result<(), AllocError>
    ensures written { OnOk result (bytes.new.items ≡ bytes.old.items ++ lines_bytes lines.now) }
    ensures fits { OnOk result (AllByRecursion FitsLine lines.now) }
{
    for line in lines {
        write_line(bytes, line)?;
    }
    Ok(())
}

fn write_line(bytes: &mut Vec<u8>, line: &LogLine) -> Result<(), AllocError>
    ensures written { OnOk result (bytes.new.items ≡ bytes.old.items ++ line_bytes line.now) }
    ensures fits { OnOk result (FitsLine line.now) }
{
    bytes.push(byte_of(line.kind))?;
    bytes.extend_from_slice(&line.number.to_le_bytes())?;
    write_event(bytes, &line.event)
}

fn byte_of(kind: LogKind) -> u8
    ensures { result ≡ kind_byte kind }
{
    match kind {
        LogKind::Sequence => 0,
        LogKind::Collision => 1,
        LogKind::Cleared => 2,
        LogKind::Busy => 3,
    }
}
