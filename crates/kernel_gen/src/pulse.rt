// The pulses that a number makes.
ghost use Rattle.std.specs.Prelude.{◌≡◌};
ghost use Rattle.kernel_gen.specs.Generated.{next_number, delay_of, output_of, length_of};

/// A delay, and the pulse behind it.
#[derive(Clone, Copy, Debug)]
pub struct Pulse {
    /// The delay before the pulse (mu, 8 to 1007).
    pub delay: u64,
    /// The output of the pulse (0 to 15, for `ttl0` to `ttl15`).
    pub output: u64,
    /// The pulse's length (mu, 8 to 71).
    pub length: u64,
}

impl Pulse {
    /// The pulse of a number.
    pub fn of(x: u64) -> Pulse
        ensures delay { result.delay ≡ delay_of x }
        ensures output { result.output ≡ output_of x }
        ensures length { result.length ≡ length_of x }
    {
        Pulse {
            delay: 8 + (x >> 33) % 1000,
            output: x >> 60,
            length: 8 + (x >> 20) % 64,
        }
    }
}

/// The number after x, by the generator of Knuth's MMIX.
pub fn next_number(x: u64) -> u64
    ensures { result ≡ next_number x }
{
    x.wrapping_mul(6_364_136_223_846_793_005)
        .wrapping_add(1_442_695_040_888_963_407)
}
