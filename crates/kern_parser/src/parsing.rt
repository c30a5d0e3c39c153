// The tree of a text's tokens.

ghost use Rattle.std.specs.Prelude.{◌≡◌, ◌<◌, ◌^◌, ℕ, length, IfOk, IfErr, MatchResult, Ok};
ghost use Rattle.kern_canonical.specs.Printing.{PrintsBack};
ghost use Rattle.kern_lexer.specs.Answers.{HasTokens};
ghost use Rattle.kern_lexer.specs.Symbols.{lexemes_of};
ghost use Rattle.kern_grammar.specs.Accepted.{HasTree, IsFirstFault};
ghost use Rattle.kern_parser.specs.Answers.{EndsRightly, IsMemory};
ghost use Rattle.kern_syntax.specs.Spellable.{IsSpellableProgram};
ghost use Rattle.kern_syntax.specs.Tree.{ProgramTree};
ghost use Rattle.kern_syntax.specs.TreeOf.{tree_of};

use crate::program::program_at;
use kern_canonical::canonical_text_reads_back;
use kern_expressions::Tokens;
use kern_lexer::{Token, tokens_end_once, two_tokens_a_byte};
use kern_syntax::Program;
use std::alloc::Global;

/// Why tokens have no tree.
#[derive(Clone, Copy, PartialEq, Eq, Debug, Drop)]
pub enum SyntaxEnd {
    /// The tokens before this one, counted from 0, begin an accepted list, and those through it don't.
    Fault { token: u32 },
    /// The tokens have a tree, and memory was refused to building it.
    Memory,
}

/// The tree of a text's tokens, or the first of them with which no accepted list goes on, which is
/// named where memory is refused, too.
pub fn parse(alloc: Global, tokens: &[Token], bytes: &[u8]) -> Result<Program, SyntaxEnd>
    requires short { length bytes.now < 2 ^ 31 }
    requires lexed { HasTokens bytes.now tokens.now }
    ensures found { IfOk result (λ p. HasTree (lexemes_of bytes.now tokens.now) (tree_of p)) }
    ensures spellable { IfOk result (λ p. IsSpellableProgram (tree_of p)) }
    ensures printed { IfOk result (λ p. PrintsBack (tree_of p)) }
    ensures only { (tree : ProgramTree) → HasTree (lexemes_of bytes.now tokens.now) tree →
        MatchResult result (λ p. tree_of p ≡ tree) IsMemory }
    ensures fault { IfErr result (EndsRightly (lexemes_of bytes.now tokens.now)) }
    ensures refused { (place : ℕ) → IsFirstFault (lexemes_of bytes.now tokens.now) place → result ≡ Err (SyntaxEnd.Fault place) }
{
    tokens_end_once();
    two_tokens_a_byte();
    canonical_text_reads_back();
    match program_at(alloc, Tokens::of(bytes, tokens)) {
        Ok((program, _rest)) => match program {
            Some(program) => Ok(program),
            None => Err(SyntaxEnd::Memory),
        },
        Err(wrong) => Err(SyntaxEnd::Fault {
            token: (tokens.len() - wrong.left.list.len()) as u32,
        }),
    }
}
