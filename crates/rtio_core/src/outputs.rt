// The outputs of a core: the lanes, what was put out of them, and the log.

ghost use Rattle.std.specs.Prelude.{◌≡◌, ◌≢◌, ◌≤◌, ◌<◌, ◌+◌, ◌^◌, ℕ, List, [], ◌∷◌, ◌++◌, IfOk, OnOk, OnErr, drop, length, map, vec_len, vec_capacity};
ghost use Rattle.limits.specs.Limits.{most_depth, most_lanes};
ghost use Rattle.rtio_types.specs.Time.{cycle_of};
ghost use Rattle.sed_lanes.specs.Judged.{LaneStep, Submit, Clear};
ghost use Rattle.sed_lanes.specs.Verdict.{Undecided, verdict};
ghost use Rattle.rtio_core.specs.Played.{IsPlayed, IsPlayedTo, HasRoom};
ghost use Rattle.rtio_core.specs.Lines.{lines_for};

use limits::{CHANNELS, MOST_LANES};
use output_merge::{Holds, merge};
use rtio_log::{Log, LogKind, LogLine};
use rtio_types::{Event, cycle_of};
use sed_lanes::{Heads, Lanes, Place};
use std::alloc::{AllocError, Global};

/// What a core keeps of its outputs.
#[derive(Debug, Drop)]
pub struct Outputs {
    pub lanes: Lanes,
    pub holds: Holds,
    pub log: Log,
    pub put_out: Vec<Event>,
    pub peaks: Vec<u32>,
    /// How many outputs were asked.
    pub number: u64,
    /// The greatest cycle of the accepted events that weren't cleared.
    pub greatest: u64,
    /// The greatest cycle of those among them that aren't held any more.
    pub reached: u64,
    /// No held event is of an earlier cycle.
    pub next: u64,
    /// What a tick drains, and what the merge and the sieve make of it.
    pub heads: Heads,
    pub kept: Heads,
    pub collided: Heads,
    pub busy: Heads,
}

// No drain takes more: one event of each lane.
const MOST_HEADS: u32 = MOST_LANES as u32;

// Puts events out in their order.
fn put_out(from: &mut Heads, into: &mut Vec<Event>)
    requires { vec_len into.old + length from.old.items ≤ vec_capacity into.old }
    ensures items { into.new.items ≡ into.old.items ++ map (λ p. p.1) from.old.items }
    ensures len { vec_len into.new ≡ vec_len into.old + length from.old.items }
    ensures capacity { vec_capacity into.new ≡ vec_capacity into.old }
    ensures from { from.new ≡ record { items = []; room = from.old.room + length from.old.items } }
{
    for i in 0..from.len() {
        let (_, event) = from.item(i);
        into.push_reserved(event);
    }
    from.clear();
}

// Logs events in their order.
fn log_all(from: &mut Heads, kind: LogKind, log: &mut Log)
    requires { length from.old.items ≤ log.old.room }
    ensures lines { log.new.lines ≡ log.old.lines ++ lines_for kind from.old.items }
    ensures room { log.new.room + length from.old.items ≡ log.old.room }
    ensures from { from.new ≡ record { items = []; room = from.old.room + length from.old.items } }
{
    for i in 0..from.len() {
        let (number, event) = from.item(i);
        log.add(LogLine {
            kind,
            number,
            event,
        });
    }
    from.clear();
}

impl Outputs {
    /// No output yet.
    pub fn new(
        alloc: Global,
        holds: &[u32; CHANNELS],
        lanes: u32,
        depth: u32,
    ) -> Result<Outputs, AllocError>
        requires lanes { (1 ≤ lanes) × (lanes ≤ most_lanes) }
        requires depth { (1 ≤ depth) × (depth ≤ most_depth) }
        ensures { IfOk result (λ outputs. IsPlayed outputs holds.now lanes depth [] 0) }
    {
        let heads = Heads::with_room(alloc, MOST_HEADS)?;
        let kept = Heads::with_room(alloc, MOST_HEADS)?;
        let collided = Heads::with_room(alloc, MOST_HEADS)?;
        let busy = Heads::with_room(alloc, MOST_HEADS)?;
        let peaks = vec![in alloc; 0u32; lanes as usize]?;
        Ok(Outputs {
            lanes: Lanes::new(alloc, lanes, depth)?,
            holds: Holds::new(holds),
            log: Log::new(alloc),
            put_out: Vec::new(alloc),
            peaks,
            number: 0,
            greatest: 0,
            reached: 0,
            next: u64::MAX,
            heads,
            kept,
            collided,
            busy,
        })
    }

    /// Takes room for one event more, and for its line in the log where the room that is there is that of other events.
    pub fn take_room(&mut self) -> Result<(), AllocError>
        ensures played { (holds : List ℕ) (lanes depth counter : ℕ) (steps : List LaneStep) → IsPlayed self.old holds lanes depth steps counter → IsPlayed self.new holds lanes depth steps counter }
        ensures lanes { self.new.lanes ≡ self.old.lanes }
        ensures number { self.new.number ≡ self.old.number }
        ensures room { (counter : ℕ) → IsPlayedTo self.old counter → OnOk result (HasRoom self.new) }
    {
        let events = u64::from(self.lanes.held()) + 1;
        self.put_out.reserve(events as usize)?;
        if self.log.room() < events {
            self.log.reserve(1)?;
        }
        Ok(())
    }

    /// Counts an event that came too late.
    pub fn miss(&mut self, counter: u64, event: Event)
        requires late { cycle_of event ≤ counter }
        requires number { self.old.number + 1 < 2 ^ 64 }
        ensures { (holds : List ℕ) (lanes depth : ℕ) (steps : List LaneStep) → IsPlayed self.old holds lanes depth steps counter
            → IsPlayed self.new holds lanes depth (steps ++ Submit counter event ∷ []) counter }
    {
        self.number += 1;
    }

    /// Gives an event to a lane, or logs that it is out of sequence.
    pub fn place(&mut self, counter: u64, event: Event)
        requires played { IsPlayedTo self.old counter }
        requires later { counter < cycle_of event }
        requires decided { verdict self.old.lanes event counter ≢ Undecided }
        requires room { HasRoom self.old }
        requires number { self.old.number + 1 < 2 ^ 64 }
        ensures { (holds : List ℕ) (lanes depth : ℕ) (steps : List LaneStep) → IsPlayed self.old holds lanes depth steps counter
            → IsPlayed self.new holds lanes depth (steps ++ Submit counter event ∷ []) counter }
    {
        let number = self.number;
        self.number = number + 1;
        match self.lanes.place(counter, number, &event) {
            Place::Lane(lane) => {
                let held = self.lanes.held_by(lane);
                let peak = self.peaks[lane as usize].max(held);
                self.peaks[lane as usize] = peak;
                self.greatest = self.greatest.max(cycle_of(&event));
                self.next = self.next.min(cycle_of(&event));
            }
            Place::Sequence { .. } => self.log.add(LogLine {
                kind: LogKind::Sequence,
                number,
                event,
            }),
            Place::Wait { .. } => unreachable!(),
        }
    }

    /// Clears what isn't put out yet, and logs it.
    pub fn clear(&mut self, alloc: Global, counter: u64) -> Result<(), AllocError>
        requires { IsPlayedTo self.old counter }
        ensures ok { OnOk result ((holds : List ℕ) (lanes depth : ℕ) (steps : List LaneStep) → IsPlayed self.old holds lanes depth steps counter
            → IsPlayed self.new holds lanes depth (steps ++ Clear counter ∷ []) counter) }
        ensures err { OnErr result (self.new ≡ self.old) }
    {
        let mut cleared = Heads::with_room(alloc, self.lanes.held())?;
        self.lanes.clear(&mut cleared);
        log_all(&mut cleared, LogKind::Cleared, &mut self.log);
        self.greatest = self.reached;
        self.next = u64::MAX;
        Ok(())
    }

    /// How many events were put out.
    pub fn count(&self) -> usize
        ensures { result ≡ length self.now.put_out.items }
    {
        let events: &[Event] = &self.put_out;
        events.len()
    }

    /// The events that were put out behind the first so many.
    pub fn put_out_after(&self, count: usize) -> &[Event]
        requires { count ≤ length self.now.put_out.items }
        ensures { result.now ≡ drop count self.now.put_out.items }
    {
        &self.put_out[count..]
    }

    /// Puts out the events of the next cycle, and logs those that collide and those that find their channels busy.
    pub fn advance(&mut self, counter: u64)
        requires played { IsPlayedTo self.old counter }
        requires counter { counter + 1 < 2 ^ 64 }
        ensures { (holds : List ℕ) (lanes depth : ℕ) (steps : List LaneStep) → IsPlayed self.old holds lanes depth steps counter
            → IsPlayed self.new holds lanes depth steps (counter + 1) }
    {
        let cycle = counter + 1;
        if cycle < self.next {
            return;
        }
        self.lanes.drain(cycle, &mut self.heads);
        self.next = self.lanes.next_cycle().unwrap_or(u64::MAX);
        if self.heads.len() == 0 {
            return;
        }
        self.reached = cycle;
        merge(&mut self.heads, &mut self.kept, &mut self.collided);
        self.holds.sieve(cycle, &mut self.kept, &mut self.busy);
        put_out(&mut self.kept, &mut self.put_out);
        log_all(&mut self.collided, LogKind::Collision, &mut self.log);
        log_all(&mut self.busy, LogKind::Busy, &mut self.log);
    }
}
