// Cores that lie at their desks.

ghost use Rattle.lab_workers.specs.Stepping.{DeskCuts, DeskRuns, MayUse};

use desk::Chair;
use desk_kernels::run_kernel_at;
use lab_kits::Kit;
use rtio_core::{Core, StartOf};
use sched_core::KernelResult;
use stage_work::Runner;
use std::alloc::{AllocError, Global};
use std::sync::Wait;
use worker_desks::Desks;

/// Runs kernels at the desks of the cores, with the units of each kernel, for the worker of this number.
#[derive(Drop)]
pub(crate) struct AtDesks<'a, R: Wait> {
    pub(crate) rt: &'a R,
    pub(crate) desks: &'a Desks,
    pub(crate) number: u32,
}

impl<R: Wait> Runner for AtDesks<'_, R> {
    type Place = Chair<Core>;

    ghost may_run = { λ m. MayUse m.desks.now m.number };

    ghost has_run = { λ m. DeskRuns m.desks.now m.number };

    ghost is_cut = { λ m. DeskCuts m.desks.now m.number };

    fn run(
        &self,
        alloc: Global,
        chair: &mut Chair<Core>,
        pipeline: u32,
        kit: &Kit,
        of: StartOf,
    ) -> Result<KernelResult, AllocError> {
        let place = pipeline as usize;
        run_kernel_at(
            self.rt,
            alloc,
            &self.desks.cores[place],
            chair,
            &kit.compiled,
            of,
            self.desks.session.budget,
        )
    }
}
