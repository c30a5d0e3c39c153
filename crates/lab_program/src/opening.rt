// The cores of a new laboratory.

ghost use Rattle.std.specs.Prelude.{◌≡◌, IfOk, IsTrue};
ghost use Rattle.exp_model.specs.Sessions.{are_settings, is_pipeline, is_session};
ghost use Rattle.rtio_core.specs.Core.{new_core};
ghost use Rattle.stage_work.specs.Settings.{config_of, new_cores};

use exp_model::{Pipeline, Session};
use limits::CHANNELS;
use rtio_core::{Config, Core, NamedList};
use std::alloc::{AllocError, Global};

/// A new core for each pipeline of a session, with the session's numbers and the pipeline's edges.
pub fn open_cores(alloc: Global, session: &Session) -> Result<Vec<Core>, AllocError>
    requires { IsTrue (is_session session.now) }
    ensures { IfOk result (λ cores. cores.items ≡ new_cores session.now) }
{
    let mut cores = Vec::new(alloc);
    for pipeline in session.pipelines.items() {
        cores.push(open_core(alloc, session, pipeline)?)?;
    }
    Ok(cores)
}

// The core of a pipeline.
fn open_core(alloc: Global, session: &Session, pipeline: &Pipeline) -> Result<Core, AllocError>
    requires settings { IsTrue (are_settings session.now) }
    requires edges { IsTrue (is_pipeline pipeline.now) }
    ensures { IfOk result (λ core. core ≡ new_core (config_of session.now pipeline.now)) }
{
    let config = config_of(alloc, session, pipeline)?;
    Core::new(alloc, config)
}

// The settings of a pipeline's core: each channel executes an event at once, and no recording is handed in.
fn config_of(alloc: Global, session: &Session, pipeline: &Pipeline) -> Result<Config, AllocError>
    ensures { IfOk result (λ config. config ≡ config_of session.now pipeline.now) }
{
    Ok(Config {
        lanes: session.lanes,
        depth: session.depth,
        cost: session.cost,
        horizon: session.horizon,
        edges: pipeline.edges.copy(alloc)?,
        holds: [0; CHANNELS],
        kept: NamedList::of(Vec::new(alloc)),
    })
}
