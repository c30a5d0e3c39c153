// Cores that are told in threads.

ghost use Rattle.std.specs.Prelude.{◌≡◌, ◌<◌, ℕ, All, IfOk, None, Some, length, map, option_map, slice_get, slice_index_or, string_bytes};
ghost use Rattle.rtio_core.specs.Core.{CoreState};
ghost use Rattle.rtio_core.specs.Entries.{open_session};
ghost use Rattle.lab_program.specs.Telling.{AreTold, CanBeTold, IsToldAt};

use crate::draining::lines_of;
use rtio_core::Core;
use std::alloc::{AllocError, Global};
use std::thread;
use std::thread::Threads;

/// A core that is to be told, or its lines.
#[derive(Drop)]
pub(crate) struct Telling {
    /// The core, until it is told.
    pub(crate) core: Option<Core>,
    /// Its lines, once it is, if memory sufficed.
    pub(crate) lines: Option<String>,
}

/// Lets each core, on which no session is open, go on until it is stopped, and gives the lines of each, by pipeline. The cores are
/// told in so many threads at most, and each is dropped where it was told. The only error is want of memory.
pub fn tell_cores<R: Threads + Sync>(
    rt: &R,
    alloc: Global,
    cores: Vec<Core>,
    threads: u32,
) -> Result<Vec<String>, AllocError>
    requires threads { 0 < threads }
    requires closed { (pipeline : ℕ) (core : CoreState) → slice_get cores.items pipeline ≡ Some core → open_session core.history ≡ None }
    ensures { IfOk result (λ lines. AreTold 0 cores.items (map string_bytes lines.items)) }
{
    let mut tellings = to_be_told(alloc, cores)?;
    tell_in_threads(rt, alloc, threads as usize, tellings.as_mut_slice());
    lines_of_all(alloc, tellings)
}

// The cores, none of which is told.
fn to_be_told(alloc: Global, cores: Vec<Core>) -> Result<Vec<Telling>, AllocError>
    ensures { IfOk result (λ tellings. map (λ telling. telling.core) tellings.items ≡ map (λ core. Some core) cores.items) }
{
    let mut tellings = Vec::with_capacity(alloc, cores.len())?;
    for core in cores {
        tellings.push(Telling {
            core: Some(core),
            lines: None,
        })?;
    }
    Ok(tellings)
}

// Tells each, by its place.
fn tell_in_threads<R: Threads + Sync>(
    rt: &R,
    alloc: Global,
    threads: usize,
    tellings: &mut [Telling],
)
    requires threads { 0 < threads }
    requires cores { All CanBeTold tellings.old }
    ensures { (i : ℕ) (d : _) → i < length tellings.old → IsToldAt i (slice_index_or tellings.old i d) (slice_index_or tellings.new i d) }
{
    thread::for_each_mut(
        rt,
        tellings,
        threads,
        &|pipeline, telling| tell(alloc, pipeline as u64, telling),
    );
}

// Tells a core, which is dropped.
fn tell(alloc: Global, pipeline: u64, telling: &mut Telling)
    requires { CanBeTold telling.old }
    ensures { IsToldAt pipeline telling.old telling.new }
{
    let Some(core) = telling.core.take() else {
        unreachable!()
    };
    telling.lines = lines_of(alloc, pipeline, core);
}

// The lines of all, if memory sufficed for each.
fn lines_of_all(alloc: Global, tellings: Vec<Telling>) -> Result<Vec<String>, AllocError>
    ensures { IfOk result (λ all. map (λ telling. option_map string_bytes telling.lines) tellings.items ≡ map (λ lines. Some (string_bytes lines)) all.items) }
{
    let mut all = Vec::with_capacity(alloc, tellings.len())?;
    for telling in tellings {
        let Telling { core: _, lines } = telling;
        let Some(lines) = lines else {
            return Err(AllocError);
        };
        all.push(lines)?;
    }
    Ok(all)
}
