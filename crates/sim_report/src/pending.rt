// The events that are still to be put out.

ghost use Rattle.std.specs.Prelude.{◌≡◌, ◌↔◌, [], false, map, slice_get, IfOk, IsTrue, Some};
ghost use Rattle.rtio_log.specs.Kinds.{lines_of};
ghost use Rattle.rtio_log.specs.declared.LogKind.TheVariants as kind;
ghost use Rattle.sim_report.specs.Pending.{pending_events, pends};
ghost use Rattle.sim_report.specs.Steps.{may_pend, still_pends};

use crate::steps::{Step, step_of};
use rtio_core::Core;
use rtio_log::{LogKind, LogLine, is_kind};
use rtio_types::{Event, cycle_of};
use std::alloc::{AllocError, Global};

/// The accepted events that no reset cleared and whose cycle is above the counter, in the order of submission. The only
/// error is want of memory.
pub fn pending_events(alloc: Global, core: &Core) -> Result<Vec<Event>, AllocError>
    ensures { IfOk result (λ events. events.items ≡ pending_events core.now) }
{
    if is_through(core) {
        return Ok(Vec::new(alloc));
    }
    walk_for_pending(alloc, core)
}

/// Whether an accepted event that no reset cleared is still to be put out: its cycle is above the counter.
pub fn pends(core: &Core) -> bool
    ensures { result ≡ pends core.now }
{
    if is_through(core) {
        return false;
    }
    walk_for_any(core)
}

// Whether no session is open and the counter stands still below the horizon: then all is put out, and no walk has to tell.
fn is_through(core: &Core) -> bool
    ensures events { IsTrue result → pending_events core.now ≡ [] }
    ensures none { IsTrue result → pends core.now ≡ false }
{
    if core.session().is_some() || core.counter() >= core.horizon() {
        return false;
    }
    core.stopped()
}

// The same events, found entry by entry.
fn walk_for_pending(alloc: Global, core: &Core) -> Result<Vec<Event>, AllocError>
    ensures { IfOk result (λ events. events.items ≡ pending_events core.now) }
{
    let missed = missed(alloc, core.log())?;
    let counter = core.counter();
    let mut events = Vec::new(alloc);
    let mut number = 0;
    let mut passed = 0;
    for entry in core.history() {
        match step_of(entry) {
            Step::Submits { event, is_done } => {
                if is_next(&missed, passed, number) {
                    passed += 1;
                } else if may_pend(event, is_done, counter) {
                    events.push(event)?;
                }
                number += 1;
            }
            // It takes all that isn't put out yet.
            Step::Clears => events.clear(),
            Step::Other => {}
        }
    }
    Ok(events)
}

// Whether there is one, found entry by entry.
fn walk_for_any(core: &Core) -> bool
    ensures { result ≡ pends core.now }
{
    let counter = core.counter();
    let mut pends = false;
    for entry in core.history() {
        pends = still_pends(pends, step_of(entry), counter);
    }
    pends
}

// Whether an event pends after a step, by whether one did before it. An event out of sequence counts too: the lane that
// refused it had taken one of its cycle or a later one.
fn still_pends(before: bool, step: Step, counter: u64) -> bool
    ensures { result ≡ still_pends before step counter }
{
    match step {
        Step::Submits { event, is_done } => before || may_pend(event, is_done, counter),
        Step::Clears => false,
        Step::Other => before,
    }
}

// Whether an output is done and its cycle is above the counter.
fn may_pend(event: Event, is_done: bool, counter: u64) -> bool
    ensures { result ≡ may_pend event is_done counter }
{
    is_done && counter < cycle_of(&event)
}

// Whether the number stands at this place of the list.
fn is_next(numbers: &[u64], place: usize, number: u64) -> bool
    ensures { IsTrue result ↔ (slice_get numbers.now place ≡ Some number) }
{
    match numbers.get(place) {
        Some(found) => *found == number,
        None => false,
    }
}

// The numbers of the events out of sequence.
fn missed(alloc: Global, log: &[LogLine]) -> Result<Vec<u64>, AllocError>
    ensures { IfOk result (λ numbers. numbers.items ≡ map (λ p. p.0) (lines_of kind.Sequence log.now)) }
{
    let mut numbers = Vec::new(alloc);
    for line in log {
        if is_kind(LogKind::Sequence, line.kind) {
            numbers.push(line.number)?;
        }
    }
    Ok(numbers)
}
