// What stands at the front of a line's bytes.

ghost use Rattle.std.specs.Prelude.{◌≡◌, ◌<◌, length};
ghost use Rattle.std.specs.List.{prefix_len};
ghost use Rattle.kern_lexer.specs.Bytes.{is_word_byte};
ghost use Rattle.kern_lexer.specs.Fronts.{word_front, text_front, sign_front, front_of, begins_token};

use crate::fault::LexKind;
use crate::number::number_of;
use crate::spelling::{key_of, sign_at};
use crate::token::TokenKind;

/// What stands at the front of some bytes of a line.
#[derive(Clone, Copy, Debug, Drop)]
pub(crate) enum Front {
    Space,
    /// A token of some bytes.
    Token { kind: TokenKind, len: usize },
}

// The most bytes that a name has.
const NAME_LEN: usize = 64;

// The most bytes that a text in quotes has.
const TEXT_LEN: usize = 32;

// Each letter, digit and underscore stands at its own place, and a comma at every other.
static WORD_BYTES: [u8; 256] = *b"\
    ,,,,,,,,,,,,,,,,,,,,,,,,,,,,,,,,\
    ,,,,,,,,,,,,,,,,0123456789,,,,,,\
    ,ABCDEFGHIJKLMNOPQRSTUVWXYZ,,,,_\
    ,abcdefghijklmnopqrstuvwxyz,,,,,\
    ,,,,,,,,,,,,,,,,,,,,,,,,,,,,,,,,\
    ,,,,,,,,,,,,,,,,,,,,,,,,,,,,,,,,\
    ,,,,,,,,,,,,,,,,,,,,,,,,,,,,,,,,\
    ,,,,,,,,,,,,,,,,,,,,,,,,,,,,,,,,";

// A letter, a digit or an underscore.
fn is_word_byte(b: u8) -> bool
    ensures { result ≡ is_word_byte b }
{
    WORD_BYTES[b as usize] != b','
}

// How many letters, digits and underscores some bytes begin with.
fn word_len(bytes: &[u8]) -> usize
    ensures { result ≡ prefix_len is_word_byte bytes.now }
{
    bytes.iter().take_while(|b| is_word_byte(**b)).count()
}

// A number where the word begins with a digit, else a keyword or a name.
fn word_front(word: &[u8]) -> Result<Front, LexKind>
    ensures { result ≡ word_front word.now }
{
    let kind = match word {
        [b'0'..=b'9', ..] => TokenKind::Integer(number_of(word).ok_or(LexKind::Number)?),
        _ => match key_of(word) {
            Some(key) => TokenKind::Key(key),
            None if word.len() <= NAME_LEN => TokenKind::Name,
            None => return Err(LexKind::Name),
        },
    };
    Ok(Front::Token {
        kind,
        len: word.len(),
    })
}

// The text in quotes of which the opening quote stands before these bytes.
fn text_front(rest: &[u8]) -> Result<Front, LexKind>
    ensures { result ≡ text_front rest.now }
{
    let len = word_len(rest);
    if 1 <= len && len <= TEXT_LEN && rest.get(len) == Some(&b'"') {
        Ok(Front::Token {
            kind: TokenKind::Text,
            len: len + 2,
        })
    } else {
        Err(LexKind::Text)
    }
}

// The longest sign at the front.
fn sign_front(bytes: &[u8]) -> Result<Front, LexKind>
    ensures { result ≡ sign_front bytes.now }
{
    let sign = sign_at(bytes).ok_or(LexKind::Byte)?;
    Ok(Front::Token {
        kind: TokenKind::Sign(sign),
        len: sign.text().len(),
    })
}

/// What stands at the front of some bytes, or what is wrong there.
pub(crate) fn front_of(bytes: &[u8]) -> Result<Front, LexKind>
    requires { 0 < length bytes.now }
    ensures { result ≡ front_of bytes.now }
{
    match bytes[0] {
        b' ' => Ok(Front::Space),
        b'\t' => Err(LexKind::Tab),
        b'"' => text_front(&bytes[1..]),
        first if is_word_byte(first) => word_front(&bytes[..word_len(bytes)]),
        _ => sign_front(bytes),
    }
}

/// Whether a token stands at the front, a wrong number, text or name included.
pub(crate) fn begins_token(bytes: &[u8]) -> bool
    ensures { result ≡ begins_token bytes.now }
{
    let first = match bytes {
        [] => return false,
        [first, ..] => *first,
    };
    match first {
        b' ' | b'\t' => false,
        b'"' => true,
        _ => is_word_byte(first) || sign_at(bytes).is_some(),
    }
}
