// Tokens.

/// The words that are keywords and no names. They are Python's, as far as kernels use them.
#[derive(Clone, Copy, PartialEq, Eq, Debug, Drop)]
pub enum Key {
    Def,
    Return,
    If,
    Elif,
    Else,
    While,
    For,
    In,
    With,
    Try,
    Except,
    Pass,
    Break,
    Continue,
    And,
    Or,
    Not,
    True,
    False,
}

/// The signs: brackets, punctuation and operators. Of two that fit, the longer is read.
#[derive(Clone, Copy, PartialEq, Eq, Debug, Drop)]
pub enum Sign {
    OpenParenthesis,
    CloseParenthesis,
    OpenBracket,
    CloseBracket,
    Comma,
    Colon,
    Dot,
    At,
    Assign,
    AddAssign,
    SubtractAssign,
    Arrow,
    Equal,
    NotEqual,
    Less,
    LessEqual,
    Greater,
    GreaterEqual,
    Plus,
    Minus,
    Star,
    DoubleSlash,
    Percent,
    ShiftLeft,
    ShiftRight,
    Ampersand,
    Caret,
    Tilde,
    Bar,
}

/// What a token is, with all that a parser asks of it but the bytes of a name or a text.
#[derive(Clone, Copy, PartialEq, Eq, Debug, Drop)]
pub enum TokenKind {
    /// A letter or `_`, then letters, digits and `_`: at most 64 bytes, and no keyword.
    Name,
    Key(Key),
    /// A decimal or hexadecimal number by its value, which is at most 2^63 - 1.
    Integer(u64),
    /// A quote, 1 to 32 letters, digits or `_`, and a quote. The token has its quotes.
    Text,
    Sign(Sign),
    /// The end of a line that has tokens, where no bracket is open.
    Newline,
    /// A line begins deeper than the block around it.
    Indent,
    /// A block has ended; one for each that ends.
    Dedent,
    /// The end of the text, the last token.
    End,
}

/// A token of a text and where it stands.
///
/// A Newline stands at its line feed, or with length 0 at the end of a text that has none behind
/// it. Indent, Dedent and End have length 0: those of a line stand at the first byte behind its
/// spaces, those at the end at the text's length.
#[derive(Clone, Copy, PartialEq, Eq, Debug, Drop)]
pub struct Token {
    pub kind: TokenKind,
    /// The place of the first byte, from 0.
    pub at: u32,
    /// How many bytes it has.
    pub len: u32,
    /// The line, from 1.
    pub line: u32,
}
