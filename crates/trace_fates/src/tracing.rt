// The outputs of a history, each with its fate.

ghost use Rattle.std.specs.Prelude.{◌≡◌, map, option_to_list, IfOk};
ghost use Rattle.trace_fates.specs.Asked.{output_by, outputs_of};
ghost use Rattle.trace_fates.specs.Fates.{traced};
ghost use Rattle.trace_fates.specs.Passes.{asked_output, first_fate};

use crate::naming::name_lost;
use crate::overriding::tell_overridden;
use crate::{Fate, TracedOutput};
use rtio_core::{Act, Core, Entry};
use rtio_types::{Event, Reply, Request, cycle_of};
use std::alloc::{AllocError, Global};

/// The outputs that a core was asked for and answered, late ones too, by number, and what became of each up to the
/// counter. The only error is want of memory.
pub fn traced_outputs(alloc: Global, core: &Core) -> Result<Vec<TracedOutput>, AllocError>
    ensures { IfOk result (λ outputs. outputs.items ≡ traced core.now) }
{
    let mut outputs = asked_outputs(alloc, core.history(), core.counter())?;
    name_lost(&mut outputs, core.log());
    tell_overridden(alloc, &mut outputs)?;
    Ok(outputs)
}

// The outputs of a history as they stand at a counter before the log is read.
fn asked_outputs(
    alloc: Global,
    history: &[Entry],
    counter: u64,
) -> Result<Vec<TracedOutput>, AllocError>
    ensures { IfOk result (λ outputs. outputs.items ≡ map (asked_output counter) (outputs_of history.now)) }
{
    let mut outputs = Vec::new(alloc);
    for entry in history {
        if let Some(output) = asked_in(&entry.act, outputs.len() as u64, counter) {
            outputs.push(output)?;
        }
    }
    Ok(outputs)
}

// The output that an act asked for under this number.
fn asked_in(act: &Act, number: u64, counter: u64) -> Option<TracedOutput>
    ensures { option_to_list result ≡ map (asked_output counter) (output_by number act.now) }
{
    match act {
        Act::Asked {
            request: Request::Out(event),
            reply,
            at,
        } => Some(TracedOutput {
            number,
            event: *event,
            at: *at,
            fate: first_fate(reply, event, counter),
        }),
        _ => None,
    }
}

// The fate of an output that the log doesn't name and nothing overrides.
fn first_fate(reply: &Reply, event: &Event, counter: u64) -> Fate
    ensures { result ≡ first_fate reply.now event.now counter }
{
    match reply {
        Reply::Underflow => Fate::Late,
        _ if cycle_of(event) <= counter => Fate::CameOut,
        _ => Fate::Pending,
    }
}
