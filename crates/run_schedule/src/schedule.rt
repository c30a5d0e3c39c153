// Schedules.

ghost use Rattle.std.specs.Prelude.{◌≡◌, ◌==◌, ◌||◌, ◌+◌, nat_lt, if◌then◌else◌, ◌≤◌, ◌<◌, ◌↔◌, IsTrue, IsSome, IfSome, map, length, [], ◌∷◌};
ghost use Rattle.std.specs.List.{list_all};
ghost use Rattle.run_schedule.specs.Schedules.{ScheduleState, Lockstep, Letters, Mix, ComesNearer, after_step, is_lockstep, is_word, letter_step, mix_step, mixed, step_of, ticks_after, ticks_before_cpu};

use arrayvec::ArrayVec;
use std::marker::Model;

/// Who takes the next step.
#[derive(Clone, Copy, Debug, PartialEq, Eq)]
pub enum Step {
    /// The processor, which asks or ends the session.
    Cpu,
    /// The core, which ticks.
    Tick,
}

#[derive(Debug, Drop)]
enum Kind {
    Lockstep,
    Letters {
        word: ArrayVec<u8, 64>,
        place: usize,
    },
    Mix {
        x: u64,
        ticks: u32,
    },
}

/// In which order a session's processor and its core take their steps.
#[derive(Debug, Drop)]
pub struct Schedule {
    kind: Kind,
}

impl Model for Schedule {
    ghost use Rattle.run_schedule.specs.Schedules.{ScheduleState};
    ghost use Rattle.run_schedule.specs.Kinds.{kind_state, IsKind};

    ghost Value = { ScheduleState };

    ghost view = { λ s. kind_state s.kind };

    ghost invariant = { λ s. IsKind s.kind };
}

// The greatest number of ticks in a row of a mix.
const MOST_TICKS: u32 = 63;

impl Schedule {
    /// The core ticks until it is stopped, and then the processor takes one step.
    pub fn lockstep() -> Schedule
        ensures { result ≡ Lockstep }
    {
        Schedule {
            kind: Kind::Lockstep,
        }
    }

    /// The steps of a word, again and again: `c` is one of the processor, `t` is a tick. None unless it has 1 to 64 such
    /// letters, with a `c` among them.
    pub fn letters(word: &[u8]) -> Option<Schedule>
        ensures form { IsSome result ↔ IsTrue (is_word word.now) }
        ensures word { IfSome result (λ schedule. schedule ≡ Letters (map letter_step word.now)) }
    {
        if !is_word(word) {
            return None;
        }
        Some(Schedule {
            kind: Kind::Letters {
                word: kept(word),
                place: 0,
            },
        })
    }

    /// Steps that a number makes: it becomes `number * 6364136223846793005 + 1442695040888963407` modulo 2^64 before each
    /// step, which is the processor's where its highest bit is 1, or where the last 63 steps were ticks.
    pub fn mix(x: u64) -> Schedule
        ensures { result ≡ Mix x 0 }
    {
        Schedule {
            kind: Kind::Mix { x, ticks: 0 },
        }
    }

    /// Whether the core ticks until it is stopped, before each step of the processor.
    pub fn is_lockstep(&self) -> bool
        ensures { result ≡ is_lockstep self.now }
    {
        match self.kind {
            Kind::Lockstep => true,
            Kind::Letters { .. } | Kind::Mix { .. } => false,
        }
    }

    /// The next step. `held` says that the core is stopped.
    pub fn next(&mut self, held: bool) -> Step
        ensures step { result ≡ step_of self.old held }
        ensures after { self.new ≡ after_step self.old }
        // The processor has a step within 64, unless the core decides.
        ensures bound { ticks_before_cpu self.old ≤ 63 }
        ensures still_bound { ticks_before_cpu self.new ≤ 63 }
        ensures nearer { ComesNearer self.old held result self.new }
    {
        match &mut self.kind {
            Kind::Lockstep => { if held { Step::Cpu } else { Step::Tick } }
            Kind::Letters { word, place } => {
                let letter = word.as_slice()[*place];
                *place = place_after(*place, word.len());
                step_of_letter(letter)
            }
            Kind::Mix { x, ticks } => {
                let number = mixed(*x);
                let step = mix_step(number, *ticks);
                *x = number;
                *ticks = ticks_after(step, *ticks);
                step
            }
        }
    }
}

// Whether the letters are a word.
fn is_word(word: &[u8]) -> bool
    ensures { result ≡ is_word word.now }
{
    1 <= word.len() && word.len() <= 64 && are_letters(word) && word.contains(&b'c')
}

// Whether each byte is a letter of a word.
fn are_letters(word: &[u8]) -> bool
    ensures { result ≡ list_all (λ c. (c == 99) || (c == 116)) word.now }
{
    word.iter().all(|letter| is_letter(*letter))
}

fn is_letter(letter: u8) -> bool
    ensures { result ≡ ((letter == 99) || (letter == 116)) }
{
    letter == b'c' || letter == b't'
}

// The letters, kept.
fn kept(word: &[u8]) -> ArrayVec<u8, 64>
    requires { length word.now ≤ 64 }
    ensures { result.items ≡ word.now }
{
    let mut letters = ArrayVec::new();
    match letters.try_extend_from_slice(word) {
        Ok(()) => letters,
        Err(_) => unreachable!(),
    }
}

// The step of a letter.
fn step_of_letter(letter: u8) -> Step
    ensures { result ≡ letter_step letter }
{
    if letter == b'c' {
        Step::Cpu
    } else {
        Step::Tick
    }
}

// The place of the next letter.
fn place_after(place: usize, count: usize) -> usize
    requires { place < count }
    ensures { result ≡ (if nat_lt (place + 1) count then place + 1 else 0) }
{
    if place + 1 < count { place + 1 } else { 0 }
}

// The number after x.
fn mixed(x: u64) -> u64
    ensures { result ≡ mixed x }
{
    x.wrapping_mul(6_364_136_223_846_793_005)
        .wrapping_add(1_442_695_040_888_963_407)
}

// The step of a number, after so many ticks.
fn mix_step(x: u64, ticks: u32) -> Step
    ensures { result ≡ mix_step x ticks }
{
    if x >= 1 << 63 || ticks >= MOST_TICKS {
        Step::Cpu
    } else {
        Step::Tick
    }
}

// How many ticks came last, after this step.
fn ticks_after(step: Step, ticks: u32) -> u32
    requires { ticks ≤ 63 }
    ensures { result ≡ ticks_after step ticks }
{
    match step {
        Step::Cpu => 0,
        Step::Tick => ticks + 1,
    }
}
