// The kit of a run that is never compiled.

ghost use Rattle.std.specs.Prelude.{◌≡◌};

use sched_core::Payload;

/// The number of a source, kept in place of what its preparation would make.
#[derive(Clone, Copy, Debug, PartialEq, Eq)]
pub struct Token {
    /// The place of the source in the session's list, from 0.
    pub source: u32,
}

impl Payload for Token {
    ghost use Rattle.sched_driver.specs.Tokens.{token_source, TokenText, TokenCall};

    ghost source_of = { token_source };

    ghost stands_for = { TokenText };

    ghost has_call = { TokenCall };

    fn source(&self) -> u32 {
        self.source
    }
}
