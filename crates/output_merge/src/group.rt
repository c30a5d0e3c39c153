// The group of a channel among the events of one cycle.

ghost use Rattle.std.specs.Prelude.{◌≡◌, ◌++◌, ◌∷◌, [], ℕ, List, Some, filter, ◌==◌};
ghost use Rattle.rtio_types.specs.Board.{replaces};
ghost use Rattle.rtio_types.specs.declared.event.Event.{Event};
ghost use Rattle.output_merge.specs.Groups.{is_collision, is_keeper};
ghost use Rattle.output_merge.specs.Summaries.{part_by, summary_of};

use rtio_types::{ChannelKind, Event, kind_of};
use sed_lanes::Heads;

/// What becomes of an event of a group.
#[derive(Clone, Copy, Debug, PartialEq, Eq)]
pub enum Part {
    /// It is put out.
    Keeper,
    /// A later event of the same stamp is put out in its place.
    Overridden,
    /// It collides with the event that is put out.
    Collision,
}

impl Part {
    /// Whether the event is put out.
    pub fn is_keeper(self) -> bool
        ensures { result ≡ is_keeper self }
    {
        matches!(self, Part::Keeper)
    }

    /// Whether the event collides.
    pub fn is_collision(self) -> bool
        ensures { result ≡ is_collision self }
    {
        matches!(self, Part::Collision)
    }
}

/// What decides the parts of a group's events: the number and the stamp of the first, and the number of the last that
/// has that stamp.
#[derive(Clone, Copy, Debug, PartialEq, Eq)]
pub struct Group {
    pub first: u64,
    pub stamp: i64,
    pub last: u64,
}

// A group and one event more.
fn with_event(group: Option<Group>, number: u64, event: &Event) -> Group
    ensures { (before : List (ℕ × Event)) → group ≡ summary_of before →
        summary_of (before ++ (number, event.now) ∷ []) ≡ Some result }
{
    match group {
        None => Group {
            first: number,
            stamp: event.stamp,
            last: number,
        },
        Some(group) if event.stamp == group.stamp => Group {
            last: number,
            ..group
        },
        Some(group) => group,
    }
}

// The group of a channel, and one event more if it is of that channel.
fn with_item(group: Option<Group>, channel: u8, number: u64, event: &Event) -> Option<Group>
    ensures { (before : List (ℕ × Event)) →
        group ≡ summary_of (filter (λ p. p.1.channel == channel) before) →
        result ≡ summary_of (filter (λ p. p.1.channel == channel) (before ++ (number, event.now) ∷ [])) }
{
    if event.channel == channel {
        Some(with_event(group, number, event))
    } else {
        group
    }
}

/// The group of a channel, if it has an event.
pub fn group_of(heads: &Heads, channel: u8) -> Option<Group>
    ensures { result ≡ summary_of (filter (λ p. p.1.channel == channel) heads.now.items) }
{
    let mut group = None;
    for i in 0..heads.len() {
        let (number, event) = heads.item(i);
        group = with_item(group, channel, number, &event);
    }
    group
}

// Whether an output on a channel replaces an earlier one of the same stamp.
fn replaces(channel: u8) -> bool
    ensures { result ≡ replaces channel }
{
    kind_of(channel) != Some(ChannelKind::OutRaw)
}

/// What becomes of an event of a group.
pub fn part_in(group: Option<Group>, number: u64, event: &Event) -> Part
    ensures { result ≡ part_by group number event.now }
{
    let Some(group) = group else {
        return Part::Keeper;
    };
    if !replaces(event.channel) {
        return if number == group.first {
            Part::Keeper
        } else {
            Part::Collision
        };
    }
    if event.stamp != group.stamp {
        Part::Collision
    } else if number == group.last {
        Part::Keeper
    } else {
        Part::Overridden
    }
}
