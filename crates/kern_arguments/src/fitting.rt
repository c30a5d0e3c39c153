// Which arguments fit the parameters of a function.

ghost use Rattle.std.specs.Prelude.{◌↔◌, IsTrue};
ghost use Rattle.kern_arguments.specs.Fitting.{ArgumentFits};

use kern_syntax::{DeclaredType, Parameter};

// Whether a parameter of this type can hold a number.
fn argument_fits(declared: DeclaredType, value: i64) -> bool
    ensures { IsTrue result ↔ ArgumentFits declared value }
{
    match declared {
        DeclaredType::Int32 => i32::MIN as i64 <= value && value <= i32::MAX as i64,
        DeclaredType::Int64 => true,
        DeclaredType::Bool => value == 0 || value == 1,
    }
}

ghost use Rattle.std.specs.Prelude.{map};
ghost use Rattle.kern_syntax.specs.TreeOf.{parameter_of};
ghost use Rattle.kern_arguments.specs.Fitting.{ArgumentsFit};

/// Whether these are as many arguments as there are parameters, and each is a number that its parameter's type can hold: one of
/// 32 bits for an int32, of 64 bits for an int64, and 0 or 1 for a bool. A kernel step may call a function with such arguments
/// alone.
pub fn arguments_fit(parameters: &[Parameter], arguments: &[i64]) -> bool
    ensures { IsTrue result ↔ ArgumentsFit (map parameter_of parameters.now) arguments.now }
{
    if parameters.len() != arguments.len() {
        return false;
    }
    for index in 0..parameters.len() {
        if !argument_fits(parameters[index].declared, arguments[index]) {
            return false;
        }
    }
    true
}
