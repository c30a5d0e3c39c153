// A run of accepted code.

ghost use Rattle.std.specs.Prelude.{IfOk, IfSome};
ghost use Rattle.cpu_bench.specs.Ending.{EndsSo};

use core_cpu::{Cpu, Stop};
use core_image::Verified;
use rtio_types::Outcome;
use std::alloc::{AllocError, Global};

/// How a run ends.
#[derive(Clone, Copy, Debug)]
pub struct End {
    /// How the run ended.
    pub outcome: Outcome,
    /// How many instructions began.
    pub steps: u64,
    /// How many units are left.
    pub units: u32,
    /// The cursor, in mu.
    pub cursor: i64,
}

/// Runs the main function of some code from cursor 0, with so many units, to its end; None where it asks a request. The
/// only error is want of memory.
pub fn run(alloc: Global, code: &Verified, units: u32) -> Result<Option<End>, AllocError>
    ensures { IfOk result (λ found. IfSome found (EndsSo code.now units)) }
{
    let main = code.code().main;
    let mut cpu = Cpu::boot(alloc, code, u32::from(main), &[], 0, units)?;
    match cpu.advance(alloc)? {
        Stop::Ended(outcome) => Ok(Some(End {
            outcome,
            steps: cpu.steps(),
            units: cpu.units(),
            cursor: cpu.cursor(),
        })),
        Stop::Ask(_) => Ok(None),
    }
}
