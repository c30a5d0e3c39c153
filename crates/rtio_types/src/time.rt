// Machine units (mu), and coarse cycles of them.

ghost use Rattle.std.specs.Prelude.{◌≡◌, ◌<◌, ◌^◌};
ghost use Rattle.rtio_types.specs.Time.{coarse_of, counter_reaching, cycle_of, cycle_of_stamp, reading, whole_cycles};

use crate::Event;

/// How many machine units (mu) a coarse cycle has. One mu is a nanosecond, and a cycle of the coarse clock has 8 mu, as
/// at the ARTIQ manual's usual settings.
pub const MU_PER_CYCLE: u64 = 8;

/// The coarse cycle of a stamp in mu, rounded down also where the stamp is negative.
pub fn coarse(stamp: i64) -> i64
    ensures { result ≡ coarse_of stamp }
{
    stamp.div_euclid(MU_PER_CYCLE as i64)
}

/// The cycle in which a stamp is met; one before cycle 0 counts as 0, since no counter is below it.
pub fn cycle_of_stamp(stamp: i64) -> u64
    ensures cycle { result ≡ cycle_of_stamp stamp }
    ensures small { result < 2 ^ 60 }
{
    coarse(stamp).max(0) as u64
}

/// The cycle of an event, that of its stamp.
pub fn cycle_of(event: &Event) -> u64
    ensures cycle { result ≡ cycle_of event.now }
    ensures small { result < 2 ^ 60 }
{
    cycle_of_stamp(event.stamp)
}

/// How many whole cycles a time (mu) has.
pub fn whole_cycles(time: u64) -> u64
    ensures { result ≡ whole_cycles time }
{
    time / MU_PER_CYCLE
}

/// What a counter of cycles reads, in mu.
pub fn reading(counter: u64) -> u64
    requires { counter < 2 ^ 61 }
    ensures { result ≡ reading counter }
{
    MU_PER_CYCLE * counter
}

/// The least counter that reads at least this moment (mu).
pub fn counter_reaching(moment: i64) -> u64
    ensures { result ≡ counter_reaching moment }
{
    (moment.max(0) as u64).div_ceil(MU_PER_CYCLE)
}
