// Cores of one's own.

ghost use Rattle.std.specs.Prelude.{◌≡◌, None};
ghost use Rattle.rtio_core.specs.Entries.{open_session};
ghost use Rattle.stage_work.specs.Serving.{OwnCuts, OwnRuns};

use crate::runner::Runner;
use lab_kernels::run_kernel;
use lab_kits::Kit;
use rtio_core::{Core, StartOf};
use sched_core::KernelResult;
use std::alloc::{AllocError, Global};

/// Runs kernels as chair 0, with so many units each.
#[derive(Clone, Copy, Debug)]
pub(crate) struct Owner {
    pub(crate) units: u32,
}

impl Runner for Owner {
    type Place = Core;

    ghost may_run = { λ m pipeline core. open_session core.history ≡ None };

    ghost has_run = { λ m. OwnRuns m.units };

    ghost is_cut = { λ m. OwnCuts m.units };

    fn run(
        &self,
        alloc: Global,
        core: &mut Core,
        _pipeline: u32,
        kit: &Kit,
        of: StartOf,
    ) -> Result<KernelResult, AllocError> {
        run_kernel(alloc, core, 0, &kit.compiled, of, self.units)
    }
}
