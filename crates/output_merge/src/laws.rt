// What holds of every history of the lanes, of what it puts out and what it logs.

ghost use Rattle.std.specs.Prelude.{◌≡◌, ◌≤◌, ◌+◌, ◌++◌, [], ◌∷◌, ℕ, List, filter, length, map, nat_lt, not, true};
ghost use Rattle.std.specs.List.{list_all};
ghost use Rattle.rtio_types.specs.declared.event.Event.{Event};
ghost use Rattle.sed_lanes.specs.Calls.{held_at};
ghost use Rattle.sed_lanes.specs.Counters.{NeverFall};
ghost use Rattle.sed_lanes.specs.Heads.{by_number};
ghost use Rattle.sed_lanes.specs.Judged.{Clear, LaneStep, judged, lanes_after};
ghost use Rattle.sed_lanes.specs.Lanes.{held_events};
ghost use Rattle.sed_lanes.specs.Sorting.{sorted};
ghost use Rattle.output_merge.specs.Busy.{busy, hold_of, is_busy};
ghost use Rattle.output_merge.specs.Groups.{collisions, group_of, is_logged_before, keepers};
ghost use Rattle.output_merge.specs.Live.{cleared, live};
ghost use Rattle.output_merge.specs.Outputs.{outputs, put_out_by, up_to};

/// What is put out in the next cycle is what the merge keeps of the events that the lanes hold of it, less those that
/// find their channels busy, behind all that was put out before; and what collides or is busy in it is what does among
/// them.
pub fn a_tick_puts_out_what_the_merge_keeps()
    ensures kept { (holds : List ℕ) (lanes depth : ℕ) (steps : List LaneStep) (counter : ℕ) → 1 ≤ lanes → NeverFall 0 steps counter →
        outputs holds (judged lanes depth steps) (counter + 1)
        ≡ outputs holds (judged lanes depth steps) counter
        ++ map (λ p. p.1) (filter (λ p. not (is_busy holds (put_out_by holds (judged lanes depth steps) counter) p))
        (keepers (by_number (held_at (counter + 1) (lanes_after lanes depth (judged lanes depth steps) counter))))) }
    ensures busy { (holds : List ℕ) (lanes depth : ℕ) (steps : List LaneStep) (counter : ℕ) → 1 ≤ lanes → NeverFall 0 steps counter →
        up_to (counter + 1) (busy holds (keepers (live (judged lanes depth steps))))
        ≡ up_to counter (busy holds (keepers (live (judged lanes depth steps))))
        ++ sorted is_logged_before (filter (λ p. is_busy holds (put_out_by holds (judged lanes depth steps) counter) p)
        (keepers (by_number (held_at (counter + 1) (lanes_after lanes depth (judged lanes depth steps) counter))))) }
    ensures collided { (lanes depth : ℕ) (steps : List LaneStep) (counter : ℕ) → 1 ≤ lanes → NeverFall 0 steps counter →
        up_to (counter + 1) (collisions (live (judged lanes depth steps)))
        ≡ up_to counter (collisions (live (judged lanes depth steps)))
        ++ collisions (by_number (held_at (counter + 1) (lanes_after lanes depth (judged lanes depth steps) counter))) }
{}

/// What was put out up to a counter stays, and so does what collided and what was busy, whatever is submitted or cleared
/// at that counter or later ones.
pub fn what_was_put_out_stays()
    ensures kept { (holds : List ℕ) (lanes depth : ℕ) (steps more : List LaneStep) (counter to : ℕ) → NeverFall counter more to →
        outputs holds (judged lanes depth (steps ++ more)) counter ≡ outputs holds (judged lanes depth steps) counter }
    ensures busy { (holds : List ℕ) (lanes depth : ℕ) (steps more : List LaneStep) (counter to : ℕ) → NeverFall counter more to →
        up_to counter (busy holds (keepers (live (judged lanes depth (steps ++ more)))))
        ≡ up_to counter (busy holds (keepers (live (judged lanes depth steps)))) }
    ensures collided { (lanes depth : ℕ) (steps more : List LaneStep) (counter to : ℕ) → NeverFall counter more to →
        up_to counter (collisions (live (judged lanes depth (steps ++ more))))
        ≡ up_to counter (collisions (live (judged lanes depth steps))) }
{}

/// A clearing takes the events that the lanes hold, by number, behind all that were cleared before.
pub fn a_clearing_takes_what_the_lanes_hold()
    ensures { (lanes depth : ℕ) (steps : List LaneStep) (at : ℕ) → 1 ≤ lanes → NeverFall 0 steps at →
        cleared (judged lanes depth (steps ++ Clear at ∷ []))
        ≡ cleared (judged lanes depth steps)
        ++ by_number (held_events (lanes_after lanes depth (judged lanes depth steps) at)) }
{}

/// An event that is alone in its group doesn't collide.
pub fn no_event_collides_alone()
    ensures { (events : List (ℕ × Event)) →
        list_all (λ p. nat_lt 1 (length (group_of p.1 events))) (collisions events) ≡ true }
{}

/// An event of a channel with a hold of 0 or 1 isn't busy.
pub fn no_event_is_busy_without_a_hold()
    ensures { (holds : List ℕ) (keepers : List (ℕ × Event)) →
        list_all (λ p. nat_lt 1 (hold_of holds p.1.channel)) (busy holds keepers) ≡ true }
{}
