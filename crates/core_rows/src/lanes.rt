// Lanes and pairs of outputs: the calls of both that take memory, with enough of it.

use rtio_types::Event;
use sed_lanes::{Heads, Lanes, Place};
use std::alloc::{AllocError, Global};

const EVENT: Event = Event {
    channel: 3,
    address: 0,
    value: 1,
    stamp: 1000,
};

const LATER: Event = Event {
    channel: 3,
    address: 0,
    value: 1,
    stamp: 2000,
};

/// Tells where two outputs go of two lanes, the later one first, and the next cycle before and behind each. Fails only for want of memory.
pub fn tell_lanes(alloc: Global, told: &mut String) -> Result<(), AllocError> {
    let mut lanes = Lanes::new(alloc, 2, 2)?;
    let before = lanes.next_cycle();
    let first = lanes.place(0, 0, &LATER);
    if first != Place::Lane(0) {
        return told.push_str("another lane");
    }
    let between = lanes.next_cycle();
    let second = lanes.place(0, 1, &EVENT);
    let behind = lanes.next_cycle();
    write!(
        told,
        "{before:?}, {first:?}, {between:?}, {second:?}, {behind:?}"
    )
}

/// Tells a pair in its room, and when it is taken. Fails only for want of memory.
pub fn tell_pairs(alloc: Global, told: &mut String) -> Result<(), AllocError> {
    let mut heads = Heads::with_room(alloc, 2)?;
    heads.push(7, EVENT);
    let held = heads.len();
    let (number, event) = heads.item(0);
    let (same, taken) = heads.remove(0);
    let left = heads.len();
    write!(told, "{held}: {number} {event:?}; {same} {taken:?}; {left}")
}
