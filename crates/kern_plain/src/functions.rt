// The plain functions of a program.

ghost use Rattle.std.specs.Prelude.{◌≡◌, ◌<◌, [], IfOk, map};
ghost use Rattle.arrayvec.specs.ArrayVec.{array_vec_len};
ghost use Rattle.kern_syntax.specs.TreeOf.{function_of, tree_of};
ghost use Rattle.kern_plain.specs.Plain.{with_plain};
ghost use Rattle.kern_plain.specs.PlainFunctions.{plain_names};

use crate::plain::is_plain_function;
use arrayvec::ArrayVec;
use kern_expression_types::is_among;
use kern_syntax::Function;
use std::alloc::{AllocError, Global};

/// Adds a function to the plain ones before it, if it is one.
pub fn note_plain<'a>(plain: &mut ArrayVec<&'a [u8], 256>, function: &'a Function)
    requires { array_vec_len plain.old < 256 }
    ensures { map (λ n. n.now) plain.new.items ≡ with_plain (map (λ n. n.now) plain.old.items) (function_of function.now) }
{
    if is_new_plain(plain.as_slice(), function) {
        plain.push(function.name.bytes());
    }
}

/// The names of the plain functions, in the order of the text. It ends early only for want of memory.
pub fn plain_functions(alloc: Global, functions: &[Function]) -> Result<Vec<&[u8]>, AllocError>
    ensures { IfOk result (λ plain. map (λ n. n.now) plain.items ≡ plain_names [] (tree_of functions.now)) }
{
    let mut plain = Vec::new(alloc);
    for function in functions.iter() {
        if is_new_plain(&plain, function) {
            plain.push(function.name.bytes())?;
        }
    }
    Ok(plain)
}

ghost use Rattle.std.specs.Prelude.{◌&&◌, not};
ghost use Rattle.kern_plain.specs.Plain.{is_in, is_plain_function};

// Whether a function is plain whose name isn't among the plain ones before it.
fn is_new_plain(plain: &[&[u8]], function: &Function) -> bool
    ensures { result ≡ (is_plain_function (map (λ n. n.now) plain.now) (function_of function.now) && not (is_in (map (λ n. n.now) plain.now) function.now.name)) }
{
    is_plain_function(plain, function) && !is_among(plain, function.name.bytes())
}
