// Who runs kernels on the cores of pipelines.

ghost use Rattle.std.specs.Prelude.{ℕ, IfOk, OnErr};
ghost use Rattle.rtio_core.specs.declared.data.StartOf.{StartOf};
ghost use Rattle.sched_state.specs.declared.entry.KernelResult.{KernelResult};
ghost use Rattle.lab_kernels.specs.Meant.{TakesArguments};
ghost use Rattle.lab_kits.specs.declared.kit.Kit.{Kit};
ghost use Rattle.lab_kits.specs.Kits.{program_in};

use lab_kits::Kit;
use rtio_core::StartOf;
use sched_core::KernelResult;
use std::alloc::{AllocError, Global};

/// Runs kernels on the cores of pipelines: each core may be one's own, or lie on a desk.
pub trait Runner {
    /// What has a core: the core itself, or a chair at its desk.
    type Place;

    /// A kernel may run there, on the core of this pipeline.
    ghost may_run: { Self → (pipeline : ℕ) → Self.Place → Type 0 };

    /// A session for this was run there with the kit, and had this result.
    ghost has_run: { Self → (pipeline : ℕ) → Kit → StartOf → Self.Place → Self.Place → KernelResult → Type 0 };

    /// Want of memory kept it from running, or cut it short.
    ghost is_cut: { Self → (pipeline : ℕ) → Kit → StartOf → Self.Place → Self.Place → Type 0 };

    /// Runs a kernel as a session on the core of a pipeline, with the units of each kernel. The only error is want of memory.
    fn run(
        &self,
        alloc: Global,
        place: &mut Self::Place,
        pipeline: u32,
        kit: &Kit,
        of: StartOf,
    ) -> Result<KernelResult, AllocError>
        requires may { may_run self.now pipeline place.old }
        requires arguments { TakesArguments (program_in kit.now) of.function of.args }
        ensures ran { IfOk result (λ result. has_run self.now pipeline kit.now of place.old place.new result) }
        ensures cut { OnErr result (is_cut self.now pipeline kit.now of place.old place.new) };
}
