// Runs of a kernel's `main` and of an image's main function, each on a new core.
ghost use Rattle.std.specs.Prelude.{◌≡◌, ◌≤◌, ◌+◌, length, IfOk, IsTrue, None};
ghost use Rattle.kern_syntax.specs.TreeOf.{tree_of};
ghost use Rattle.rtio_core.specs.Entries.{is_config_ok, open_session};
ghost use Rattle.sim_report.specs.Ends.{HasEnded};
ghost use Rattle.sim_program.specs.Readings.{IsMainRun};
ghost use Rattle.sim_program.specs.Runs.{IsReported, RunsCode, start_of};

use core_code::Compiled;
use core_image::Verified;
use core_session::{Ran, SessionEnd, drain_core, run_code, runs_have_scripts};
use kernel_session::run_session;
use rtio_core::{Core, StartOf};
use rtio_headline::what_is_put_out_was_submitted;
use rtio_types::{IntList, Outcome};
use sim_words::Options;
use std::alloc::{AllocError, Global};

/// What a run leaves.
#[derive(Debug, Drop)]
pub struct Run {
    /// The core, which went on until it was stopped.
    pub core: Core,
    /// How the session ended.
    pub outcome: Outcome,
    /// How many instructions it began.
    pub steps: u64,
}

/// Runs a kernel's `main` from cursor 0 on a new core with these settings, and lets the core go on until it is stopped.
pub fn run_main(alloc: Global, compiled: &Compiled, options: Options) -> Result<Run, AllocError>
    requires { IsTrue (is_config_ok options.config) }
    ensures run { IfOk result (λ run. IsMainRun (tree_of compiled.now.0) compiled.now.1 options run.core run.outcome run.steps) }
    ensures ended { IfOk result (λ run. HasEnded run.core.history) }
    ensures few { IfOk result (λ run. length run.core.history ≤ options.budget + 2) }
{
    let main = compiled.code().code().main;
    let mut schedule = options.schedule;
    let mut core = Core::new(alloc, options.config)?;
    let of = start_of(alloc, main as u32);
    match run_session(
        alloc,
        &mut core,
        compiled,
        of,
        options.budget,
        &mut schedule,
    ) {
        Ok(ran) => Ok(settled(core, ran)),
        Err(SessionEnd::Memory) => Err(AllocError),
        Err(SessionEnd::Busy { .. }) => unreachable!(),
    }
}

/// Runs the main function of accepted code in the same way.
pub fn run_image(alloc: Global, code: &Verified, options: Options) -> Result<Run, AllocError>
    requires { IsTrue (is_config_ok options.config) }
    ensures run { IfOk result (λ run. RunsCode code.now options run.core run.outcome run.steps) }
    ensures ended { IfOk result (λ run. HasEnded run.core.history) }
    ensures few { IfOk result (λ run. length run.core.history ≤ options.budget + 2) }
{
    runs_have_scripts();
    let main = code.code().main;
    let mut schedule = options.schedule;
    let mut core = Core::new(alloc, options.config)?;
    let of = start_of(alloc, main as u32);
    match run_code(alloc, &mut core, code, of, options.budget, &mut schedule) {
        Ok(ran) => Ok(settled(core, ran)),
        Err(SessionEnd::Memory) => Err(AllocError),
        Err(SessionEnd::Busy { .. }) => unreachable!(),
    }
}

/// What the session of a function runs: the function of source 0, without arguments, for the first step of run 0.
pub fn start_of(alloc: Global, function: u32) -> StartOf
    ensures { result ≡ start_of function }
{
    StartOf {
        source: 0,
        function,
        args: IntList::of(Vec::new(alloc)),
        rid: 0,
        pos: 0,
    }
}

// Lets the core go on until it is stopped, after its session.
fn settled(core: Core, ran: Ran) -> Run
    requires { open_session core.history ≡ None }
    ensures reported { IsReported core result.core }
    ensures outcome { result.outcome ≡ ran.outcome }
    ensures steps { result.steps ≡ ran.steps }
{
    what_is_put_out_was_submitted();
    let mut core = core;
    drain_core(&mut core);
    let _lawful = core.history();
    Run {
        core,
        outcome: ran.outcome,
        steps: ran.steps,
    }
}
