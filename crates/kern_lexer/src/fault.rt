// What is wrong with a text that has no tokens.

ghost use Rattle.std.specs.Prelude.{◌≡◌};

use std::alloc::AllocError;

/// What is wrong with a text that has no tokens. The rules are this project's own.
#[derive(Clone, Copy, PartialEq, Eq, Debug, Drop)]
pub enum LexKind {
    /// A byte that begins no token, as `$`, or a carriage return with no line feed behind it.
    Byte,
    /// A tab outside comments.
    Tab,
    /// Leading spaces whose number is no width that is open.
    Indent,
    /// A number above 2^63 - 1, or a word that begins with a digit and is no number.
    Number,
    /// A quote that 1 to 32 letters, digits or `_` and a closing quote don't follow.
    Text,
    /// A name of more than 64 bytes.
    Name,
}

/// Why `lex` gives no tokens.
#[derive(Clone, Copy, PartialEq, Eq, Debug, Drop)]
pub enum LexEnd {
    /// The text has no tokens: the place of the first byte of what is wrong first, and what it is.
    Fault { at: u32, kind: LexKind },
    /// There was no memory for the tokens.
    Memory,
}

impl From<AllocError> for LexEnd {
    ghost use Rattle.kern_lexer.specs.declared.fault.LexEnd.{LexEnd};

    ghost from_gives = { λ _ end. end ≡ LexEnd.Memory };

    fn from(_: AllocError) -> LexEnd {
        LexEnd::Memory
    }
}
