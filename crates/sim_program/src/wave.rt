// The waveform of the dump that bytes spell.
ghost use Rattle.std.specs.Prelude.{IfOk};
ghost use Rattle.sim_program.specs.Readings.{IsDumpOf, IsWaveOf};

use crate::refusal::{dump_refusal, early_refusal};
use core_analyzer::{Dump, DumpEnd, read_dump, rising, vcd};
use std::alloc::{AllocError, Global};

/// What the bytes of a dump are told as.
#[derive(Drop)]
pub enum Wave {
    /// The waveform text of the dump.
    Drawn(Vec<u8>),
    /// The line that says why they have none.
    Refused(Vec<u8>),
}

/// Reads bytes as a dump and draws its waveform, or says why they have none: for their fields or for a stamp below 8, in this
/// order.
pub fn wave_of(alloc: Global, bytes: &[u8]) -> Result<Wave, AllocError>
    ensures { IfOk result (λ wave. IsWaveOf bytes.now wave) }
{
    match read_dump(alloc, bytes) {
        Ok(dump) => draw(alloc, bytes, &dump),
        Err(DumpEnd::Memory) => Err(AllocError),
        Err(DumpEnd::Fault { offset }) => Ok(Wave::Refused(dump_refusal(alloc, offset)?)),
    }
}

// Draws the waveform of the dump that bytes spell, or says that a stamp is too early.
fn draw(alloc: Global, bytes: &[u8], dump: &Dump) -> Result<Wave, AllocError>
    requires { IsDumpOf bytes.now dump.now }
    ensures { IfOk result (λ wave. IsWaveOf bytes.now wave) }
{
    if rising(dump) {
        Ok(Wave::Drawn(vcd(alloc, dump)?))
    } else {
        Ok(Wave::Refused(early_refusal(alloc)?))
    }
}
