// What holds of the tokens of every text.

ghost use Rattle.std.specs.Prelude.{◌≡◌, ℕ, ◌+◌, ◌*◌, ◌<◌, ◌≤◌, ◌^◌, ◌⊎◌, ◌↔◌, ◌++◌, ◌∷◌, List, Some, None, Ok, Err, IsTrue, decimal, length, nat_eq};
ghost use Rattle.std.specs.List.{starts_with};
ghost use Rattle.kern_lexer.specs.Answers.{HasFault, HasTokens};
ghost use Rattle.kern_lexer.specs.Bytes.{Bytes, space};
ghost use Rattle.kern_lexer.specs.Faults.{LexFault};
ghost use Rattle.kern_lexer.specs.Numbers.{number_of};
ghost use Rattle.kern_lexer.specs.Pieces.{Piece, StandsRightly, bytes_of_piece};
ghost use Rattle.kern_lexer.specs.Signs.{sign_at, sign_text};
ghost use Rattle.kern_lexer.specs.Spelled.{EndsOnce, IsInner};
ghost use Rattle.kern_lexer.specs.Spellings.{StandsBefore, followed_by, spelling, token_of};
ghost use Rattle.kern_lexer.specs.Symbols.{Symbol};
ghost use Rattle.kern_lexer.specs.Tokens.{tokens_of};
ghost use Rattle.kern_lexer.specs.Words.{words_from};
ghost use Rattle.kern_lexer.specs.Wrong.{FitsLine};
ghost use Rattle.kern_lexer.specs.declared.token.Sign.{Sign};
ghost use Rattle.kern_lexer.specs.declared.token.Token.{Token};

/// A text has at most one list of tokens.
pub fn one_token_list()
    ensures { (text : Bytes) (a b : List Token) →
        HasTokens text a → HasTokens text b → a ≡ b }
{}

/// A text has at most one first fault.
pub fn one_first_fault()
    ensures { (text : Bytes) (a b : LexFault) → HasFault text a → HasFault text b → a ≡ b }
{}

/// A text has tokens or a first fault.
pub fn tokens_or_fault()
    ensures { (text : Bytes) →
        ((tokens : List Token) × HasTokens text tokens) ⊎ ((fault : LexFault) × HasFault text fault) }
{}

/// A text doesn't have both tokens and a fault.
pub fn never_both()
    ensures { (text : Bytes) (tokens : List Token) (fault : LexFault) →
        HasTokens text tokens → HasFault text fault → ⊥ }
{}

/// Where the first fault of a text stands, no piece rightly goes on from those before it: nothing
/// that follows there is a token with a right width, a space, a comment or a line's end.
pub fn nothing_stands_at_a_fault()
    ensures { (text : Bytes) (fault : LexFault) (has : HasFault text fault) →
        (p : Piece) (following : Bytes) → has.rest ≡ bytes_of_piece p ++ following →
        StandsRightly p following → FitsLine has.pieces p → ⊥ }
{}

/// The sign that is read at the front of some bytes is the longest that they begin with, and where
/// none is read they begin with none.
pub fn longest_signs_are_read()
    ensures begins { (bytes : Bytes) (s : Sign) → sign_at bytes ≡ Some s →
        IsTrue (starts_with nat_eq bytes (sign_text s)) }
    ensures longest { (bytes : Bytes) (s t : Sign) → sign_at bytes ≡ Some s →
        IsTrue (starts_with nat_eq bytes (sign_text t)) →
        length (sign_text t) ≤ length (sign_text s) }
    ensures none { (bytes : Bytes) (t : Sign) → sign_at bytes ≡ None →
        ¬ IsTrue (starts_with nat_eq bytes (sign_text t)) }
{}

/// The tokens of a text are those that going over its lines gives.
pub fn tokens_are_computed()
    ensures { (text : Bytes) (tokens : List Token) →
        HasTokens text tokens ↔ (tokens_of text ≡ Ok tokens) }
{}

/// The first fault of a text is the one at which going over its lines ends.
pub fn faults_are_computed()
    ensures { (text : Bytes) (fault : LexFault) →
        HasFault text fault ↔ (tokens_of text ≡ Err fault) }
{}

/// The last token of a text is its End, and no other is. Each token lies within the text, and
/// names, numbers and texts are of their form.
pub fn tokens_end_once()
    ensures { (text : Bytes) (tokens : List Token) → HasTokens text tokens → EndsOnce text tokens }
{}

/// A text has at most two tokens for each of its bytes, and one more: of fewer than 2^31 bytes
/// are fewer than 2^32 tokens.
pub fn two_tokens_a_byte()
    ensures { (text : Bytes) (tokens : List Token) →
        HasTokens text tokens → length tokens ≤ 2 * length text + 1 }
{}

/// The decimal digits of a number are read as that number.
pub fn decimals_are_read()
    ensures { (n : ℕ) → n < 2 ^ 63 → number_of (decimal n) ≡ Some n }
{}

/// Within a line the spelling of a symbol is read as its token, and then what follows, where that
/// doesn't go on with it.
pub fn spellings_are_read()
    ensures { (line at : ℕ) (s : Symbol) (rest : Bytes) → IsInner s → StandsBefore s rest →
        words_from line at 0 (spelling s ++ rest)
        ≡ followed_by (token_of line at s) (words_from line (at + length (spelling s)) 0 rest) }
{}

/// Within a line a space makes no token.
pub fn spaces_are_skipped()
    ensures { (line at : ℕ) (rest : Bytes) →
        words_from line at 0 (space ∷ rest) ≡ words_from line (at + 1) 0 rest }
{}
