// What holds of every tree's canonical text.

ghost use Rattle.std.specs.Prelude.{◌≡◌, List};
ghost use Rattle.kern_canonical.specs.Printing.{PrintsBack};
ghost use Rattle.kern_grammar.specs.Canonical.{program_tokens};
ghost use Rattle.kern_grammar.specs.Phrases.{symbols_of};
ghost use Rattle.kern_lexer.specs.Answers.{HasTokens};
ghost use Rattle.kern_lexer.specs.Symbols.{lexemes_of};
ghost use Rattle.kern_lexer.specs.declared.token.Token.{Token};
ghost use Rattle.kern_syntax.specs.Grammatical.{IsGrammatical};
ghost use Rattle.kern_syntax.specs.Print.{program_text};
ghost use Rattle.kern_syntax.specs.Spellable.{IsSpellableProgram};
ghost use Rattle.kern_syntax.specs.Tree.{ProgramTree};

use kern_grammar::canonical_tokens_parse;
use kern_lexer::tokens_are_computed;

/// The canonical text of a tree in the grammar has the tree's canonical tokens, where the tree's names, texts and
/// integers are those of tokens.
pub fn canonical_text_lexes()
    ensures { (p : ProgramTree) → IsGrammatical p → IsSpellableProgram p →
        (tokens : List Token) × HasTokens (program_text p) tokens
        × (symbols_of (lexemes_of (program_text p) tokens) ≡ program_tokens p) }
{
    tokens_are_computed();
}

/// The law of printing: such a tree's canonical text is read as that tree again, lines aside.
pub fn canonical_text_reads_back()
    ensures { (p : ProgramTree) → IsGrammatical p → IsSpellableProgram p → PrintsBack p }
{
    canonical_text_lexes();
    canonical_tokens_parse();
}
