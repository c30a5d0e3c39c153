// The names that stand for themselves.

ghost use Rattle.std.specs.Prelude.{◌≡◌};
ghost use Rattle.kern_expression_types.specs.Before.{is_in, exceptions, words, is_reserved};

use kern_calls::builtin_named;
use rtio_types::channel_named;

/// Whether a name stands for itself, so that no function, parameter or variable has it.
pub fn is_reserved(name: &[u8]) -> bool
    ensures { result ≡ is_reserved name.now }
{
    is_word(name) || is_builtin(name) || is_exception(name) || channel_named(name).is_some()
}

/// Whether a name is that of an exception.
pub fn is_exception(name: &[u8]) -> bool
    ensures { result ≡ is_in exceptions name.now }
{
    name == b"RTIOUnderflow".as_slice()
        || name == b"RTIOOverflow".as_slice()
        || name == b"DMAError".as_slice()
        || name == b"ZeroDivisionError".as_slice()
        || name == b"IndexError".as_slice()
        || name == b"StackOverflow".as_slice()
}

ghost use Rattle.std.specs.Prelude.{is_some};
ghost use Rattle.kern_calls.specs.Calls.{builtin_named};

// Whether a name is that of a function of the language.
fn is_builtin(name: &[u8]) -> bool
    ensures { result ≡ is_some (builtin_named name.now) }
{
    builtin_named(name).is_some()
}

// Whether a name is a word of the language that may not be assigned.
fn is_word(name: &[u8]) -> bool
    ensures { result ≡ is_in words name.now }
{
    name == b"core".as_slice()
        || name == b"core_dma".as_slice()
        || name == b"parallel".as_slice()
        || name == b"sequential".as_slice()
        || name == b"kernel".as_slice()
        || name == b"range".as_slice()
        || name == b"bool".as_slice()
}
