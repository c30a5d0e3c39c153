// What is timed.

ghost use Rattle.std.specs.Prelude.{◌≡◌, length, IfSome};
ghost use Rattle.core_analyzer.specs.CoreDumps.{dump_of};
ghost use Rattle.core_analyzer.specs.Dumps.{IsSpelling, dump_bytes};
ghost use Rattle.core_analyzer.specs.Waveform.{waveform_text};

use core_analyzer::{
    Dump, a_dump_has_one_spelling, has_few_entries, read_dump, rising, vcd, write_dump,
};
use rtio_core::Core;
use std::alloc::Global;

/// What is done in each round.
#[derive(Clone, Copy)]
pub enum Work {
    /// The core's dump is written.
    Write,
    /// The dump's bytes are read.
    Read,
    /// The dump's waveform is written.
    Draw,
}

/// How many bytes came out.
#[derive(Clone, Copy)]
pub struct Sizes {
    /// Of the dump.
    pub dump: usize,
    /// Of its waveform.
    pub waveform: usize,
}

/// Writes the dump of a core, reads it and writes its waveform, and then does one of these so many times more. None where the
/// core's dump has no bytes or no waveform, or there is no memory.
pub fn worked(alloc: Global, core: &Core, work: Work, rounds: u64) -> Option<Sizes>
    ensures dump { IfSome result (λ sizes. sizes.dump ≡ length (dump_bytes (dump_of core.now))) }
    ensures waveform { IfSome result (λ sizes. sizes.waveform ≡ length (waveform_text (dump_of core.now).events)) }
{
    let bytes = written(alloc, core)?;
    let dump = read_back(alloc, core, &bytes)?;
    let waveform = drawn(alloc, &dump)?;
    for _round in 0..rounds {
        repeat(alloc, core, &bytes, &dump, work)?;
    }
    Some(Sizes {
        dump: bytes.len(),
        waveform: waveform.len(),
    })
}

// One of the three once more.
fn repeat(alloc: Global, core: &Core, bytes: &[u8], dump: &Dump, work: Work) -> Option<()> {
    match work {
        Work::Write => {
            written(alloc, core)?;
        }
        Work::Read => {
            read_dump(alloc, bytes).ok()?;
        }
        Work::Draw => {
            drawn(alloc, dump)?;
        }
    }
    Some(())
}

// The bytes of the core's dump.
fn written(alloc: Global, core: &Core) -> Option<Vec<u8>>
    ensures { IfSome result (λ bytes. IsSpelling bytes.items (dump_of core.now)) }
{
    if !has_few_entries(core) {
        return None;
    }
    write_dump(alloc, core).ok()
}

// The dump that the core's bytes spell.
fn read_back(alloc: Global, core: &Core, bytes: &[u8]) -> Option<Dump>
    requires { IsSpelling bytes.now (dump_of core.now) }
    ensures { IfSome result (λ dump. dump ≡ dump_of core.now) }
{
    a_dump_has_one_spelling();
    match read_dump(alloc, bytes) {
        Ok(dump) => Some(dump),
        Err(_) => None,
    }
}

// The dump's waveform.
fn drawn(alloc: Global, dump: &Dump) -> Option<Vec<u8>>
    ensures { IfSome result (λ bytes. bytes.items ≡ waveform_text dump.now.events) }
{
    if !rising(dump) {
        return None;
    }
    vcd(alloc, dump).ok()
}
