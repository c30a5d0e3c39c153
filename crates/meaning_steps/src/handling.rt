// Exceptions and their handlers.

ghost use Rattle.std.specs.Prelude.{◌≡◌, option_map};
ghost use Rattle.kern_syntax.specs.TreeOf.{block_of, handlers_of};
ghost use Rattle.meaning_steps.specs.Handling.{handler_of};
ghost use Rattle.timeline_sem.specs.Statements.{name_of_exception};

use kern_syntax::{Block, Handler};
use rtio_types::Exc;

// The name of an exception.
fn name_of_exception(exception: Exc) -> &'static [u8]
    ensures { result.now ≡ name_of_exception exception }
{
    match exception {
        Exc::RTIOUnderflow => b"RTIOUnderflow",
        Exc::RTIOOverflow => b"RTIOOverflow",
        Exc::DMAError => b"DMAError",
        Exc::ZeroDivisionError => b"ZeroDivisionError",
        Exc::IndexError => b"IndexError",
        Exc::StackOverflow => b"StackOverflow",
    }
}

/// The block of the first handler with the exception's name, if there is one.
pub fn handler_of(handlers: &[Handler], exception: Exc) -> Option<&Block>
    ensures { option_map (λ body. block_of body.now) result ≡ handler_of (handlers_of handlers.now) exception }
{
    for handler in handlers.iter() {
        if handler.exception.bytes() == name_of_exception(exception) {
            return Some(&handler.body);
        }
    }
    None
}
