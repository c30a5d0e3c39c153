// The tokens of a text that are still to be read.

ghost use Rattle.std.specs.Prelude.{IsTrue};
ghost use Rattle.kern_grammar.specs.Spelled.{are_spelled};

use kern_lexer::Token;

/// The tokens that are still to be read, with the text that they lie in. Each is one that a text
/// can have.
#[derive(Clone, Copy)]
pub struct Tokens<'a> {
    /// The whole text.
    pub text: &'a [u8],
    /// The tokens, in the order of the text.
    pub list: &'a [Token],
    ghost spelled: { IsTrue (are_spelled text.now list.now) },
}

/// A token is wrong: how each reader ends that doesn't find what it reads.
#[derive(Clone, Copy)]
pub struct WrongToken<'a> {
    /// The tokens from the wrong one on.
    pub left: Tokens<'a>,
}

impl<'a> Tokens<'a> {
    ghost use Rattle.std.specs.Prelude.{◌≡◌, ◌-◌, drop, length};
    ghost use Rattle.kern_lexer.specs.Symbols.{bytes_at, lexemes_of};
    ghost use Rattle.kern_expressions.specs.Given.{symbols_left};
    ghost use Rattle.kern_expressions.specs.TakenBy.{lexemes_left};

    /// All tokens of a text.
    pub fn of(text: &'a [u8], list: &'a [Token]) -> Tokens<'a>
        requires { IsTrue (are_spelled text.now list.now) }
        ensures { lexemes_left result ≡ lexemes_of text.now list.now }
    {
        Tokens { text, list }
    }

    /// The tokens behind the first.
    pub fn tail(self) -> Tokens<'a>
        ensures symbols { symbols_left result ≡ drop 1 (symbols_left self.entry) }
        ensures lexemes { lexemes_left result ≡ drop 1 (lexemes_left self.entry) }
    {
        let [_, rest @ ..] = self.list else {
            return self;
        };
        Tokens {
            text: self.text,
            list: rest,
        }
    }

    /// The last of the tokens, so many of them.
    pub fn last(self, count: usize) -> Tokens<'a>
        ensures { lexemes_left result ≡ drop (length (lexemes_left self.entry) - count) (lexemes_left self.entry) }
    {
        let start = self.list.len().saturating_sub(count);
        Tokens {
            text: self.text,
            list: &self.list[start..],
        }
    }

    /// The bytes of a range of the text, as far as it reaches.
    pub fn bytes_at(self, at: usize, len: usize) -> &'a [u8]
        ensures { result.now ≡ bytes_at at len self.entry.text.now }
    {
        let start = at.min(self.text.len());
        let rest = &self.text[start..];
        &rest[..len.min(rest.len())]
    }
}
