// Sessions, as a table writes them.

use crate::steps::push_steps;
use exp_json::{FieldKind, SessionFault, read_session};
use exp_model::{Arrival, Experiment, HostText, Pipeline, Session};
use std::alloc::{AllocError, Global};
use table_rows::{push_answer, push_output};

/// Pushes the session of a text, or the line that refuses it.
pub fn push_session(alloc: Global, told: &mut String, text: &[u8]) -> Result<(), AllocError> {
    match read_session(alloc, text) {
        Ok(session) => push_parts(told, &session),
        Err(SessionFault::Json) => push_answer(told, "session json"),
        Err(
            SessionFault::Field {
                path,
                kind: FieldKind::Shape,
            },
        ) => write!(told, "\n= session {} Type", path.as_str()),
        Err(SessionFault::Field { path, kind }) => {
            write!(told, "\n= session {} {kind:?}", path.as_str())
        }
        Err(SessionFault::Memory) => Err(AllocError),
    }
}

/// Pushes whether a copy of the session says the same.
pub fn push_copy(alloc: Global, told: &mut String, text: &[u8]) -> Result<(), AllocError> {
    let Ok(session) = read_session(alloc, text) else {
        return push_answer(told, "no session");
    };
    let said = format!(in alloc; "{session:?}")?;
    let copy = session.copy(alloc)?;
    let copied = format!(in alloc; "{copy:?}")?;
    let is_same = said.as_str() == copied.as_str();
    push_answer(told, if is_same { "the same" } else { "another" })
}

fn push_parts(told: &mut String, session: &Session) -> Result<(), AllocError> {
    let (cost, budget, workers) = (session.cost, session.budget, session.workers);
    let (lanes, depth, horizon) = (session.lanes, session.depth, session.horizon);
    write!(told, "\n> cost {cost}, budget {budget}, workers {workers}")?;
    write!(told, "\n> lanes {lanes}, depth {depth}, horizon {horizon}")?;
    push_pipelines(told, session.pipelines.items())?;
    push_sources(told, session.sources.items())?;
    push_experiments(told, session.experiments.items())?;
    push_arrivals(told, session.arrivals.items())
}

fn push_pipelines(told: &mut String, pipelines: &[Pipeline]) -> Result<(), AllocError> {
    for pipeline in pipelines {
        told.push_str("\n> pipeline")?;
        for edge in pipeline.edges.items() {
            let (channel, stamp) = (edge.channel, edge.stamp);
            let letter = if edge.rising { 'r' } else { 'f' };
            write!(told, " {channel}:{stamp}:{letter}")?;
        }
    }
    Ok(())
}

fn push_sources(told: &mut String, sources: &[HostText]) -> Result<(), AllocError> {
    for source in sources {
        told.push_str("\n> source")?;
        push_output(told, '>', "", source.items())?;
    }
    Ok(())
}

fn push_experiments(told: &mut String, experiments: &[Experiment]) -> Result<(), AllocError> {
    for experiment in experiments {
        let source = experiment.source;
        write!(told, "\n> experiment of source {source}")?;
        push_steps(told, "prepare", experiment.prepare.items())?;
        push_steps(told, "run", experiment.run.items())?;
        push_steps(told, "analyze", experiment.analyze.items())?;
    }
    Ok(())
}

fn push_arrivals(told: &mut String, arrivals: &[Arrival]) -> Result<(), AllocError> {
    for arrival in arrivals {
        let (at, act) = (arrival.at, arrival.act);
        write!(told, "\n> at {at}: {act:?}")?;
    }
    Ok(())
}
