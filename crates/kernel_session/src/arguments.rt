// Which functions of a kernel may be run, and with which arguments.

ghost use Rattle.std.specs.Prelude.{◌↔◌, IsTrue};
ghost use Rattle.kern_syntax.specs.TreeOf.{tree_of};
ghost use Rattle.kernel_session.specs.Meant.{TakesArguments};

use core_code::Compiled;
use kern_arguments::arguments_fit;

/// Whether the kernel has the function of this number, and these arguments fit it: so many, each a number that its parameter's
/// type can hold.
pub fn takes_arguments(compiled: &Compiled, function: u32, args: &[i64]) -> bool
    ensures { IsTrue result ↔ TakesArguments (tree_of compiled.now.0) function args.now }
{
    let functions = compiled.checked().program().functions();
    let index = function as usize;
    index < functions.len() && arguments_fit(functions[index].parameters.items(), args)
}
