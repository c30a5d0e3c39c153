// The preparation of a run.

ghost use Rattle.std.specs.Prelude.{IsTrue, IfErr, IfOk, OnOk};
ghost use Rattle.exp_model.specs.Sessions.{is_session};
ghost use Rattle.lab_kits.specs.Accepted.{IsAccepted};
ghost use Rattle.lab_kits.specs.Ends.{IsEndFor};
ghost use Rattle.lab_kits.specs.Kits.{IsKitOf};

use crate::calls::serves_all;
use crate::end::PrepareEnd;
use crate::gate::{Gate, Place};
use crate::kit::Kit;
use exp_model::Session;
use exp_runs::Run;
use kern_accepted::compile_text;
use std::alloc::Global;

/// Compiles the source of a run, as the worker of this number, and tests the run's kernel steps on it. The worker passes
/// the gate directly before it compiles. A run whose experiment or source isn't in the session is refused.
pub fn prepare<G: Gate>(
    alloc: Global,
    session: &Session,
    run: &Run,
    gate: &G,
    worker: u32,
) -> Result<Kit, PrepareEnd>
    requires { IsTrue (is_session session.now) }
    // The kit is of the run's source, stands for its text, and has the function of each of the run's kernel steps.
    ensures kit { IfOk result (λ kit. IsKitOf session.now run.now kit) }
    // There is one only where the source is accepted, and none but other sources are refused.
    ensures accepted { OnOk result (IsAccepted session.now run.now) }
    ensures end { IfErr result (IsEndFor (IsAccepted session.now run.now)) }
{
    let Some(experiment) = session.experiments.items().get(run.experiment as usize) else {
        return Err(PrepareEnd::Refused);
    };
    let source = experiment.source;
    let Some(text) = session.sources.items().get(source as usize) else {
        return Err(PrepareEnd::Refused);
    };
    gate.at(worker, Place::Compiling { rid: run.rid });
    let compiled = compile_text(alloc, text.items())?;
    if serves_all(&compiled, experiment.run.items()) {
        Ok(Kit { source, compiled })
    } else {
        Err(PrepareEnd::Refused)
    }
}
