// What holds of every list of tokens.

ghost use Rattle.std.specs.Prelude.{◌≡◌, ◌<◌, ℕ, List, ◌++◌, length, true};
ghost use Rattle.kern_lexer.specs.Symbols.{Lexeme, Symbol};
ghost use Rattle.kern_grammar.specs.Accepted.{HasTree, IsFirstFault};
ghost use Rattle.kern_grammar.specs.Canonical.{program_tokens};
ghost use Rattle.kern_grammar.specs.Expressions.{expression_symbols};
ghost use Rattle.kern_grammar.specs.Operators.{stops};
ghost use Rattle.kern_grammar.specs.Phrases.{symbols_of};
ghost use Rattle.kern_syntax.specs.Grammatical.{Fits, IsGrammatical};
ghost use Rattle.kern_syntax.specs.Lines.{SameButLines};
ghost use Rattle.kern_syntax.specs.Tree.{Expression, ProgramTree};

/// Tokens of an expression, before something that doesn't go on with it, have one tree and one end.
pub fn one_expression()
    ensures { (level room : ℕ) (a b : Expression) (rest others : List Symbol) →
        Fits level room a → Fits level room b → stops level rest ≡ true → stops level others ≡ true →
        expression_symbols a ++ rest ≡ expression_symbols b ++ others → (a ≡ b) × (rest ≡ others) }
{}

/// A list of tokens has at most one tree.
pub fn one_tree()
    ensures { (tokens : List Lexeme) (a b : ProgramTree) → HasTree tokens a → HasTree tokens b → a ≡ b }
{}

/// A list of tokens has at most one first fault.
pub fn one_first_fault()
    ensures { (tokens : List Lexeme) (a b : ℕ) → IsFirstFault tokens a → IsFirstFault tokens b → a ≡ b }
{}

/// A list of tokens that has a tree has no first fault.
pub fn tree_or_fault()
    ensures { (tokens : List Lexeme) (tree : ProgramTree) (place : ℕ) → HasTree tokens tree → ¬ IsFirstFault tokens place }
{}

/// The first fault of a list of tokens is at one of them.
pub fn fault_is_within()
    ensures { (tokens : List Lexeme) (place : ℕ) → IsFirstFault tokens place → place < length tokens }
{}

/// The tokens of a tree's canonical text, whatever their lines, have that tree again but for its
/// lines.
pub fn canonical_tokens_parse()
    ensures { (p : ProgramTree) (tokens : List Lexeme) → IsGrammatical p →
        symbols_of tokens ≡ program_tokens p →
        (again : ProgramTree) × HasTree tokens again × SameButLines again p }
{}
