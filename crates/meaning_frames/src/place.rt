// The function that runs first.

ghost use Rattle.std.specs.Prelude.{◌≡◌, option_map, slice_get};
ghost use Rattle.kern_syntax.specs.TreeOf.{function_of, tree_of};

use kern_syntax::Function;

/// The function at a place of the text, from 0, if there is one.
pub fn function_at(functions: &[Function], place: u32) -> Option<&Function>
    ensures { option_map (λ f. function_of f.now) result ≡ slice_get (tree_of functions.now) place }
{
    functions.get(place as usize)
}
