// The lanes of a dispatcher.

ghost use Rattle.std.specs.Prelude.{◌≡◌, ◌≢◌, ◌≤◌, ◌<◌, ◌+◌, ℕ, [], ◌∷◌, ◌++◌, List, IfOk, IsTrue, Some, false, is_some, length, pos, true};
ghost use Rattle.limits.specs.Limits.{most_depth, most_lanes};
ghost use Rattle.rtio_types.specs.Time.{cycle_of};
ghost use Rattle.sed_lanes.specs.Calls.{Answers, LanesStandFor, after_verdict, all_held_after, all_held_from, held_at, is_new_number, wait_of, without};
ghost use Rattle.sed_lanes.specs.Heads.{by_number};
ghost use Rattle.sed_lanes.specs.Judged.{Clear, LaneStep, Submit, judged, next_number};
ghost use Rattle.sed_lanes.specs.Lanes.{empty_lanes, held_events, is_full_lane, lane_at, may_enter, next_lane, with_accepted};
ghost use Rattle.sed_lanes.specs.Next.{next_cycle};
ghost use Rattle.sed_lanes.specs.Verdict.{Undecided, until, verdict};

use crate::heads::Heads;
use crate::lane::Lane;
use rtio_types::{Event, cycle_of};
use std::alloc::{AllocError, Global};
use std::marker::Model;

/// Where an event went, or why it went nowhere.
#[derive(Clone, Copy, Debug, PartialEq, Eq)]
pub enum Place {
    /// This lane took it, counted from 0.
    Lane(u32),
    /// It is out of sequence: the last cycle of the next lane, which isn't earlier than its own.
    Sequence { last: i64 },
    /// The lanes that it may enter are full. The first of them has room at this cycle.
    Wait { until: u64 },
}

/// The lanes: which one took the last event, and how many events each may hold.
#[derive(Debug, Drop)]
pub struct Lanes {
    depth: u32,
    current: u32,
    lanes: Vec<Lane>,
}

impl Model for Lanes {
    ghost use Rattle.std.specs.Prelude.{map};
    ghost use Rattle.sed_lanes.specs.Lanes.{LanesState};
    ghost use Rattle.sed_lanes.specs.Rows.{AreLanes, row_state};

    ghost Value = { LanesState };

    ghost view = { λ a. record { depth = a.depth; current = a.current; lanes = map row_state a.lanes.items } };

    ghost invariant = { λ a. AreLanes a.depth a.current a.lanes.items };
}

impl Lanes {
    /// Empty lanes, 1 to 32 of them, with room for `depth` events in each, 1 to 1,024.
    pub fn new(alloc: Global, lanes: u32, depth: u32) -> Result<Lanes, AllocError>
        requires lanes { (1 ≤ lanes) × (lanes ≤ most_lanes) }
        requires depth { (1 ≤ depth) × (depth ≤ most_depth) }
        ensures empty { IfOk result (λ new. new ≡ empty_lanes lanes depth) }
        ensures stands { IfOk result (λ new. (counter : ℕ) → LanesStandFor new [] counter) }
    {
        let mut all = Vec::with_capacity(alloc, lanes as usize)?;
        for _lane in 0..lanes {
            all.push_reserved(Lane::with_room(alloc, depth)?);
        }
        Ok(Lanes {
            depth,
            current: 0,
            lanes: all,
        })
    }

    // The lane behind the current one, wrapping round.
    fn next(&self) -> u32
        ensures { result ≡ next_lane self.now }
    {
        (self.current + 1) % self.lanes.len() as u32
    }

    // Whether a lane holds as many events as it may.
    fn is_full_lane(&self, lane: u32) -> bool
        requires { lane < length self.now.lanes }
        ensures { result ≡ is_full_lane self.now lane }
    {
        self.lanes[lane as usize].is_full(self.depth)
    }

    // Whether an event is of a later cycle than the last one that a lane took.
    fn may_enter(&self, lane: u32, event: &Event) -> bool
        requires { lane < length self.now.lanes }
        ensures { result ≡ may_enter self.now lane event.now }
    {
        self.lanes[lane as usize].may_enter(cycle_of(event))
    }

    // The last cycle of a lane; 0 if it took nothing.
    fn last_of(&self, lane: u32) -> i64
        requires { lane < length self.now.lanes }
        ensures { (last : ℕ) → (lane_at self.now lane).last ≡ Some last → result ≡ pos last }
    {
        self.lanes[lane as usize].last.unwrap_or(0) as i64
    }

    // The cycle at which a place of one of the two lanes is free that the event may enter.
    fn until(&self, event: &Event) -> u64
        ensures { result ≡ until self.now event.now }
    {
        let current = self.current;
        let next = self.next();
        let here = self.lanes[current as usize].frees_at();
        let there = self.lanes[next as usize].frees_at();
        match (self.may_enter(current, event), self.may_enter(next, event)) {
            (true, true) => here.min(there),
            (true, false) => here,
            (false, true) => there,
            (false, false) => 0,
        }
    }

    // Gives an event to a lane, which becomes the current one.
    fn accept(&mut self, lane: u32, number: u64, event: Event)
        requires lane { lane < length self.old.lanes }
        requires room { is_full_lane self.old lane ≡ false }
        requires later { may_enter self.old lane event ≡ true }
        requires number { IsTrue (is_new_number number self.old) }
        ensures { self.new ≡ with_accepted self.old lane number event }
    {
        self.lanes[lane as usize].accept(number, event);
        self.current = lane;
    }

    /// How many events a lane holds.
    pub fn held_by(&self, lane: u32) -> u32
        requires { lane < length self.now.lanes }
        ensures { result ≡ length (lane_at self.now lane).held }
    {
        self.lanes[lane as usize].held.len() as u32
    }

    /// How many events all lanes hold.
    pub fn held(&self) -> u32
        ensures { result ≡ length (held_events self.now) }
    {
        let mut held = 0;
        for lane in &self.lanes {
            held += lane.held.len() as u32;
        }
        held
    }

    /// The least cycle of a held event. None where no lane holds one.
    pub fn next_cycle(&self) -> Option<u64>
        ensures { result ≡ next_cycle self.now }
    {
        let mut least = u64::MAX;
        for lane in &self.lanes {
            least = least.min(lane.first());
        }
        if least == u64::MAX { None } else { Some(least) }
    }

    /// Whether an event has to wait at this counter of cycles: the verdict on it doesn't stand, for want of room in the lanes
    /// that it may enter.
    pub fn waits(&self, counter: u64, event: &Event) -> bool
        ensures { result ≡ is_some (wait_of self.now event.now (verdict self.now event.now counter)) }
    {
        let current = self.current;
        let next = self.next();
        let late = cycle_of(event) <= counter;
        if late || (!self.is_full_lane(current) && self.may_enter(current, event)) {
            return false;
        }
        self.may_enter(next, event) && self.is_full_lane(next)
    }

    /// Until when an event has to wait at this counter of cycles: the least cycle that frees a lane which it may enter.
    /// None where the verdict on it stands at the counter.
    pub fn wait(&self, counter: u64, event: &Event) -> Option<u64>
        ensures { result ≡ wait_of self.now event.now (verdict self.now event.now counter) }
    {
        if self.waits(counter, event) {
            return Some(self.until(event));
        }
        None
    }

    /// Places an event by the verdict on it at this counter of cycles. One that waits or is out of sequence leaves the
    /// lanes as they are. `number` is its submission number.
    pub fn place(&mut self, counter: u64, number: u64, event: &Event) -> Place
        requires later { counter < cycle_of event.now }
        requires held { IsTrue (all_held_after counter self.old) }
        requires number { IsTrue (is_new_number number self.old) }
        ensures answer { Answers self.old event.now (verdict self.old event.now counter) result }
        ensures after { self.new ≡ after_verdict self.old number event.now (verdict self.old event.now counter) }
        // What the lanes stand for has grown by the event, unless it waits.
        ensures stands { (steps : List LaneStep) → LanesStandFor self.old steps counter
            → number ≡ next_number (judged (length self.old.lanes) self.old.depth steps)
            → verdict self.old event.now counter ≢ Undecided
            → LanesStandFor self.new (steps ++ Submit counter event.now ∷ []) counter }
    {
        let current = self.current;
        if !self.is_full_lane(current) && self.may_enter(current, event) {
            self.accept(current, number, *event);
            return Place::Lane(current);
        }
        let next = self.next();
        if !self.may_enter(next, event) {
            return Place::Sequence {
                last: self.last_of(next),
            };
        }
        if self.is_full_lane(next) {
            return Place::Wait {
                until: self.until(event),
            };
        }
        self.accept(next, number, *event);
        Place::Lane(next)
    }

    /// Moves the events of a cycle out, at most one of each lane, lane by lane.
    pub fn drain(&mut self, cycle: u64, into: &mut Heads)
        requires empty { into.old.items ≡ [] }
        requires room { length self.old.lanes ≤ into.old.room }
        requires none_earlier { IsTrue (all_held_from cycle self.old) }
        ensures moved { into.new.items ≡ held_at cycle self.old }
        ensures room { into.new.room + length into.new.items ≡ into.old.room }
        ensures after { self.new ≡ without cycle self.old }
        // What the lanes stand for is the same, at the counter that reached the cycle.
        ensures stands { (steps : List LaneStep) → (counter : ℕ) → counter ≤ cycle → LanesStandFor self.old steps counter → LanesStandFor self.new steps cycle }
    {
        for lane in self.lanes.iter_mut() {
            lane.drain_into(cycle, into);
        }
    }

    /// Empties all lanes and forgets their last cycles; lane 0 is the current one then. The held events come out by
    /// number.
    pub fn clear(&mut self, into: &mut Heads)
        requires empty { into.old.items ≡ [] }
        requires room { length (held_events self.old) ≤ into.old.room }
        ensures moved { into.new.items ≡ by_number (held_events self.old) }
        ensures room { into.new.room + length into.new.items ≡ into.old.room }
        ensures after { self.new ≡ empty_lanes (length self.old.lanes) self.old.depth }
        // They stand for nothing at any counter, and also for what they stood for with a clearing behind it.
        ensures stands { (steps : List LaneStep) → (counter at : ℕ) → LanesStandFor self.old steps counter → LanesStandFor self.new (steps ++ Clear at ∷ []) counter }
    {
        self.current = 0;
        for lane in self.lanes.iter_mut() {
            lane.empty_into(into);
        }
        into.sort_by_number();
    }
}
