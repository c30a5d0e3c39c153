// What the preparation of a run makes of its source.

ghost use Rattle.std.specs.Prelude.{◌≡◌, List, ℤ, IfSome, IsSome};
ghost use Rattle.kern_types.specs.Programs.{place_of_function};
ghost use Rattle.lab_kits.specs.Calls.{HasCallOf, HasFunction};
ghost use Rattle.lab_kits.specs.Kits.{program_in};

use crate::calls::function_of;
use core_code::Compiled;
use sched_core::Payload;

/// The compiled source of a run.
#[derive(Drop)]
pub struct Kit {
    /// The place of the source in the session's list, from 0.
    pub source: u32,
    /// The kernel that its text is, with its code.
    pub compiled: Compiled,
}

impl Kit {
    /// The number of the function of a name, in the order of the text, from 0; none exactly where no function has it. Where
    /// arguments fit a function of this name, it is that one.
    pub fn function_of(&self, name: &[u8]) -> Option<u32>
        ensures place { result ≡ place_of_function (program_in self.now) name.now }
        ensures there { (args : List ℤ) → HasCallOf (program_in self.now) name.now args → IsSome result }
        ensures takes { (args : List ℤ) → HasCallOf (program_in self.now) name.now args
            → IfSome result (λ function. HasFunction (program_in self.now) name.now args function) }
    {
        function_of(&self.compiled, name)
    }
}

impl Payload for Kit {
    ghost use Rattle.lab_kits.specs.Kits.{kit_source, KitCall, KitText};

    ghost source_of = { kit_source };

    ghost stands_for = { KitText };

    ghost has_call = { KitCall };

    fn source(&self) -> u32 {
        self.source
    }
}

fn sent<X: Send>(_: &X) {}

fn shared<X: Sync>(_: &X) {}

// The prover is shown here, where the fields are known, that a kit may cross threads.
fn may_cross_threads(kit: &Kit) {
    sent(kit);
    shared(kit);
}
