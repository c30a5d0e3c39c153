// Whether a kernel has the functions that steps call.

ghost use Rattle.std.specs.Prelude.{◌≡◌, ◌↔◌, List, ℤ, IsTrue, IfSome, IsSome};
ghost use Rattle.std.specs.List.{AllByRecursion};
ghost use Rattle.kern_syntax.specs.TreeOf.{tree_of};
ghost use Rattle.kern_types.specs.Programs.{place_of_function};
ghost use Rattle.sched_core.specs.Scheds.{HasCall};
ghost use Rattle.lab_kits.specs.Calls.{HasCallOf, HasFunction};

use core_code::Compiled;
use exp_model::HostStep;
use kern_arguments::arguments_fit;

/// The number of the function of a name, in the order of the text, from 0.
pub fn function_of(compiled: &Compiled, name: &[u8]) -> Option<u32>
    ensures place { result ≡ place_of_function (tree_of compiled.now.0) name.now }
    ensures there { (args : List ℤ) → HasCallOf (tree_of compiled.now.0) name.now args → IsSome result }
    ensures takes { (args : List ℤ) → HasCallOf (tree_of compiled.now.0) name.now args
        → IfSome result (λ function. HasFunction (tree_of compiled.now.0) name.now args function) }
{
    let checked = compiled.checked();
    // It is typed, so no two of its functions have one name.
    let _typed = checked.program();
    checked.function(name)
}

// Whether the kernel has a function of this name, which the arguments fit.
fn has_call(compiled: &Compiled, name: &[u8], args: &[i64]) -> bool
    ensures { IsTrue result ↔ HasCallOf (tree_of compiled.now.0) name.now args.now }
{
    match function_of(compiled, name) {
        Some(number) => {
            let function = &compiled.checked().program().functions()[number as usize];
            arguments_fit(function.parameters.items(), args)
        }
        None => false,
    }
}

// Whether the kernel has the function that a step calls, if it is a kernel step.
fn serves(compiled: &Compiled, step: &HostStep) -> bool
    ensures { IsTrue result ↔ HasCall HasCallOf (tree_of compiled.now.0) step.now }
{
    match step {
        HostStep::Kernel { name, args } => has_call(compiled, name.items(), args.items()),
        _ => true,
    }
}

/// Whether the kernel has the function of each kernel step, and the step's arguments fit it.
pub fn serves_all(compiled: &Compiled, steps: &[HostStep]) -> bool
    ensures { IsTrue result ↔ AllByRecursion (HasCall HasCallOf (tree_of compiled.now.0)) steps.now }
{
    for step in steps.iter() {
        if !serves(compiled, step) {
            return false;
        }
    }
    true
}
