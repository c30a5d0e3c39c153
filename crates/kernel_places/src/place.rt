// Places of a run.

ghost use Rattle.std.specs.Prelude.{◌≡◌};
ghost use Rattle.core_cpu.specs.Roots.{root_place};

use core_cpu::Cpu;

/// An instruction of a run, by its place in the code and by the call under which it ran.
#[derive(Clone, Copy, Debug, PartialEq, Eq, Drop)]
pub struct Place {
    /// The instruction's place.
    pub at: u32,
    /// The place of the call under which it ran, in the function with which the run began; none where that function ran it
    /// itself.
    pub root: Option<u32>,
}

/// The place of the instruction at which a processor stands.
pub fn here(cpu: &Cpu<'_>) -> Place
    ensures at { result.at ≡ cpu.now.machine.top.place }
    ensures root { result.root ≡ root_place cpu.now.machine }
{
    Place {
        at: cpu.place(),
        root: cpu.root(),
    }
}
