// Outputs that go through a core one after another.

ghost use Rattle.std.specs.Prelude.{◌≡◌, length, IfSome, OnSome, None, Some};
ghost use Rattle.rtio_core.specs.Entries.{open_session};
ghost use Rattle.rtio_core.specs.Reply.{outputs_at};

use limits::{CHANNELS, DEFAULT_DEPTH, DEFAULT_LANES, LOCKSTEP_HORIZON};
use rtio_core::{Ask, Config, Core, NamedList, StartOf, config_ok};
use rtio_types::{EdgeList, Event, IntList, Outcome, Request, reading};
use std::alloc::Global;

/// Sends so many outputs through a new core, each so many cycles behind the one before, and returns the core, which has put
/// out so many events. None where one is lost or would lie beyond the horizon, or there is no memory.
pub fn outputs_sent(alloc: Global, count: u64, distance: u64) -> Option<Core>
    ensures { IfSome result (λ core. length (outputs_at core.config core.history core.counter) ≡ count) }
{
    let mut core = opened(alloc)?;
    send_all(alloc, &mut core, count, distance)?;
    close(alloc, &mut core)?;
    (core.trace().len() as u64 == count).then_some(core)
}

// Asks for all outputs, one after another.
fn send_all(alloc: Global, core: &mut Core, count: u64, distance: u64) -> Option<()>
    requires open { open_session core.old.history ≡ Some (0, 0) }
    requires waiting { core.old.waiting ≡ None }
    ensures open { OnSome result (open_session core.new.history ≡ Some (0, 0)) }
    ensures waiting { OnSome result (core.new.waiting ≡ None) }
{
    for number in 0..count {
        send(alloc, core, output_of(number, distance)?)?;
    }
    Some(())
}

// Ends the session, and lets all outputs out.
fn close(alloc: Global, core: &mut Core) -> Option<()>
    requires open { open_session core.old.history ≡ Some (0, 0) }
    requires waiting { core.old.waiting ≡ None }
{
    core.end(alloc, 0, Outcome::Returned, 0).ok()?;
    core.leap(u64::MAX);
    Some(())
}

// The output of a number, if it isn't beyond the horizon: the first channel goes on and off in turn.
fn output_of(number: u64, distance: u64) -> Option<Event>
    ensures channel { IfSome result (λ event. event.channel ≡ 0) }
    ensures address { IfSome result (λ event. event.address ≡ 0) }
{
    let cycle = number.checked_mul(distance)?.checked_add(1)?;
    if cycle > LOCKSTEP_HORIZON {
        return None;
    }
    Some(Event {
        channel: 0,
        address: 0,
        value: if number % 2 == 0 { 1 } else { 0 },
        stamp: reading(cycle) as i64,
    })
}

// A core on which a session is open.
fn opened(alloc: Global) -> Option<Core>
    ensures open { IfSome result (λ core. open_session core.history ≡ Some (0, 0)) }
    ensures waiting { IfSome result (λ core. core.waiting ≡ None) }
{
    let config = Config {
        lanes: DEFAULT_LANES as u32,
        depth: DEFAULT_DEPTH as u32,
        cost: 0,
        horizon: LOCKSTEP_HORIZON,
        edges: EdgeList::of(Vec::new(alloc)),
        holds: [0; CHANNELS],
        kept: NamedList::of(Vec::new(alloc)),
    };
    if !config_ok(&config) {
        return None;
    }
    let main = StartOf {
        source: 0,
        function: 0,
        args: IntList::of(Vec::new(alloc)),
        rid: 0,
        pos: 0,
    };
    let mut core = Core::new(alloc, config).ok()?;
    match core.start(alloc, 0, main) {
        Ok(_) => Some(core),
        Err(_) => None,
    }
}

// Asks for an output, and once more where the core has stopped for it.
fn send(alloc: Global, core: &mut Core, event: Event) -> Option<()>
    requires open { open_session core.old.history ≡ Some (0, 0) }
    requires waiting { core.old.waiting ≡ None }
    requires channel { event.channel ≡ 0 }
    requires address { event.address ≡ 0 }
    ensures open { OnSome result (open_session core.new.history ≡ Some (0, 0)) }
    ensures waiting { OnSome result (core.new.waiting ≡ None) }
{
    if let Ask::Reply(_) = core.ask(alloc, 0, Request::Out(event)).ok()? {
        return Some(());
    }
    core.leap(u64::MAX);
    match core.ask(alloc, 0, Request::Out(event)).ok()? {
        Ask::Reply(_) => Some(()),
        _ => None,
    }
}
