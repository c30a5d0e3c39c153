// What holds of every history of the lanes.

ghost use Rattle.std.specs.Prelude.{◌≡◌, ◌≢◌, ◌≤◌, ℕ, List, filter, length, true, nat_lt};
ghost use Rattle.std.specs.List.{list_all};
ghost use Rattle.rtio_types.specs.declared.event.Event.{Event};
ghost use Rattle.rtio_types.specs.Time.{cycle_of};
ghost use Rattle.sed_lanes.specs.Accepted.{accepted_since_clearing};
ghost use Rattle.sed_lanes.specs.Counters.{NeverFall};
ghost use Rattle.sed_lanes.specs.Heads.{by_number};
ghost use Rattle.sed_lanes.specs.Judged.{Judged, LaneStep, accepted_into, judged, lane_of, lanes_after};
ghost use Rattle.sed_lanes.specs.Lanes.{held_events};
ghost use Rattle.sed_lanes.specs.Rows.{are_rising};
ghost use Rattle.sed_lanes.specs.Verdict.{Sequence, Undecided, until, verdict};
ghost use Rattle.sed_lanes.specs.Waits.{WaitsUntil};

/// What is decided stays decided: an event that still waits at a counter waited at each earlier one.
pub fn decided_stays_decided()
    ensures { (lanes depth : ℕ) (judged : List Judged) (e : Event) (from to : ℕ) → from ≤ to →
        verdict (lanes_after lanes depth judged to) e to ≡ Undecided →
        verdict (lanes_after lanes depth judged from) e from ≡ Undecided }
{}

/// An event of a later cycle than all accepted since the last clearing isn't out of sequence.
pub fn a_later_event_is_in_sequence()
    ensures { (lanes depth : ℕ) (judged : List Judged) (counter : ℕ) (e : Event) →
        list_all (λ p. nat_lt (cycle_of p.1) (cycle_of e)) (accepted_since_clearing judged) ≡ true →
        verdict (lanes_after lanes depth judged counter) e counter ≢ Sequence }
{}

/// An event that waits is decided in time: it waits until a lane that it may enter frees a place, no longer, and that
/// is before its own cycle. So waiting never makes an event underflow.
pub fn a_waiting_event_is_decided_in_time()
    ensures { (lanes depth : ℕ) (steps : List LaneStep) (counter : ℕ) (e : Event) → 1 ≤ lanes → 1 ≤ depth →
        NeverFall 0 steps counter →
        verdict (lanes_after lanes depth (judged lanes depth steps) counter) e counter ≡ Undecided →
        WaitsUntil (lanes_after lanes depth (judged lanes depth steps)) e counter
        (until (lanes_after lanes depth (judged lanes depth steps) counter) e) }
{}

/// In each lane the cycles of the events accepted since the last clearing rise.
pub fn cycles_rise_in_each_lane()
    ensures { (lanes depth : ℕ) (steps : List LaneStep) (lane : ℕ) → 1 ≤ lanes →
        are_rising (accepted_into lane (judged lanes depth steps)) ≡ true }
{}

/// No lane holds more events than it may.
pub fn no_lane_holds_too_many()
    ensures { (lanes depth : ℕ) (steps : List LaneStep) (counter lane : ℕ) → 1 ≤ lanes → NeverFall 0 steps counter →
        length (lane_of counter (accepted_into lane (judged lanes depth steps))).held ≤ depth }
{}

/// By number, what all lanes hold at a counter are the events of later cycles accepted since the last clearing.
pub fn the_lanes_hold_what_was_accepted()
    ensures { (lanes depth : ℕ) (steps : List LaneStep) (counter : ℕ) → 1 ≤ lanes →
        by_number (held_events (lanes_after lanes depth (judged lanes depth steps) counter))
        ≡ filter (λ p. nat_lt counter (cycle_of p.1)) (accepted_since_clearing (judged lanes depth steps)) }
{}
