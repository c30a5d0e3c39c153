// How keywords and signs are spelled, and read.

ghost use Rattle.std.specs.Prelude.{◌≡◌, ◌∷◌, find, slice_index};
ghost use Rattle.kern_lexer.specs.Bytes.{Bytes};
ghost use Rattle.kern_lexer.specs.Keys.{is_between, key_text, key_of, keys};
ghost use Rattle.kern_lexer.specs.Signs.{sign_text, sign_at};

use crate::token::{Key, Sign};

impl Key {
    /// How the keyword is spelled.
    pub fn text(self) -> &'static [u8]
        ensures { result.now ≡ key_text self }
    {
        match self {
            Key::Def => b"def",
            Key::Return => b"return",
            Key::If => b"if",
            Key::Elif => b"elif",
            Key::Else => b"else",
            Key::While => b"while",
            Key::For => b"for",
            Key::In => b"in",
            Key::With => b"with",
            Key::Try => b"try",
            Key::Except => b"except",
            Key::Pass => b"pass",
            Key::Break => b"break",
            Key::Continue => b"continue",
            Key::And => b"and",
            Key::Or => b"or",
            Key::Not => b"not",
            Key::True => b"True",
            Key::False => b"False",
        }
    }
}

impl Sign {
    /// How the sign is spelled.
    pub fn text(self) -> &'static [u8]
        ensures { result.now ≡ sign_text self }
    {
        match self {
            Sign::OpenParenthesis => b"(",
            Sign::CloseParenthesis => b")",
            Sign::OpenBracket => b"[",
            Sign::CloseBracket => b"]",
            Sign::Comma => b",",
            Sign::Colon => b":",
            Sign::Dot => b".",
            Sign::At => b"@",
            Sign::Assign => b"=",
            Sign::AddAssign => b"+=",
            Sign::SubtractAssign => b"-=",
            Sign::Arrow => b"->",
            Sign::Equal => b"==",
            Sign::NotEqual => b"!=",
            Sign::Less => b"<",
            Sign::LessEqual => b"<=",
            Sign::Greater => b">",
            Sign::GreaterEqual => b">=",
            Sign::Plus => b"+",
            Sign::Minus => b"-",
            Sign::Star => b"*",
            Sign::DoubleSlash => b"//",
            Sign::Percent => b"%",
            Sign::ShiftLeft => b"<<",
            Sign::ShiftRight => b">>",
            Sign::Ampersand => b"&",
            Sign::Caret => b"^",
            Sign::Tilde => b"~",
            Sign::Bar => b"|",
        }
    }
}

/// The keyword that a word is.
pub(crate) fn key_of(word: &[u8]) -> Option<Key>
    ensures { result ≡ key_of word.now }
{
    let (first, last) = match word {
        [first, .., last] => (*first, *last),
        _ => return None,
    };
    let key = key_between(first, last)?;
    if word == key.text() { Some(key) } else { None }
}

// The keyword with this first and this last byte. No two have the same.
fn key_between(first: u8, last: u8) -> Option<Key>
    ensures { result ≡ find (λ k. is_between first last (key_text k)) keys }
{
    let key = match first {
        b'd' if last == b'f' => Key::Def,
        b'r' if last == b'n' => Key::Return,
        b'i' if last == b'f' => Key::If,
        b'e' if last == b'f' => Key::Elif,
        b'e' if last == b'e' => Key::Else,
        b'w' if last == b'e' => Key::While,
        b'f' if last == b'r' => Key::For,
        b'i' if last == b'n' => Key::In,
        b'w' if last == b'h' => Key::With,
        b't' if last == b'y' => Key::Try,
        b'e' if last == b't' => Key::Except,
        b'p' if last == b's' => Key::Pass,
        b'b' if last == b'k' => Key::Break,
        b'c' if last == b'e' => Key::Continue,
        b'a' if last == b'd' => Key::And,
        b'o' if last == b'r' => Key::Or,
        b'n' if last == b't' => Key::Not,
        b'T' if last == b'e' => Key::True,
        b'F' if last == b'e' => Key::False,
        _ => return None,
    };
    Some(key)
}

/// The longest sign that some bytes begin with.
pub(crate) fn sign_at(bytes: &[u8]) -> Option<Sign>
    ensures { result ≡ sign_at bytes.now }
{
    match bytes {
        [] => None,
        [first] => sign_of(*first, 0),
        [first, next, ..] => sign_of(*first, *next),
    }
}

// The longest sign with this first byte, where this one follows it, or 0 where none does.
fn sign_of(first: u8, next: u8) -> Option<Sign>
    ensures { (rest : Bytes) → slice_index rest 0 ≡ next → result ≡ sign_at (first ∷ rest) }
{
    let sign = match first {
        b'(' => Sign::OpenParenthesis,
        b')' => Sign::CloseParenthesis,
        b'[' => Sign::OpenBracket,
        b']' => Sign::CloseBracket,
        b',' => Sign::Comma,
        b':' => Sign::Colon,
        b'.' => Sign::Dot,
        b'@' => Sign::At,
        b'*' => Sign::Star,
        b'%' => Sign::Percent,
        b'&' => Sign::Ampersand,
        b'^' => Sign::Caret,
        b'~' => Sign::Tilde,
        b'|' => Sign::Bar,
        b'=' if next == b'=' => Sign::Equal,
        b'=' => Sign::Assign,
        b'+' if next == b'=' => Sign::AddAssign,
        b'+' => Sign::Plus,
        b'-' if next == b'=' => Sign::SubtractAssign,
        b'-' if next == b'>' => Sign::Arrow,
        b'-' => Sign::Minus,
        b'<' if next == b'=' => Sign::LessEqual,
        b'<' if next == b'<' => Sign::ShiftLeft,
        b'<' => Sign::Less,
        b'>' if next == b'=' => Sign::GreaterEqual,
        b'>' if next == b'>' => Sign::ShiftRight,
        b'>' => Sign::Greater,
        b'!' if next == b'=' => Sign::NotEqual,
        b'/' if next == b'/' => Sign::DoubleSlash,
        _ => return None,
    };
    Some(sign)
}
