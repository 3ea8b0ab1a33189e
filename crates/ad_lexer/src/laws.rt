// Laws of the definitions, each on a function that does nothing.
ghost use Rattle.std.specs.Prelude.{◌≡◌, ◌⊎◌, ◌<◌, ◌^◌, ◌↔◌, ℕ, List, IsUtf8, decimal, slice_index};
ghost use Rattle.pool_text.specs.Number.{size_text};
ghost use Rattle.ad_lexer.specs.declared.fault.LexKind.{LexKind};
ghost use Rattle.ad_lexer.specs.declared.token.TokenKind.{TokenKind};
ghost use Rattle.ad_lexer.specs.Alone.{Ends};
ghost use Rattle.ad_lexer.specs.Content.{content};
ghost use Rattle.ad_lexer.specs.Lexeme.{Lexeme};
ghost use Rattle.ad_lexer.specs.Numbers.{millionths, value};
ghost use Rattle.ad_lexer.specs.Quoted.{IsQuoted};
ghost use Rattle.ad_lexer.specs.Slices.{AreTokensOf};
ghost use Rattle.ad_lexer.specs.Spelling.{Spells};
ghost use Rattle.ad_lexer.specs.Texts.{MeanTexts};
ghost use Rattle.ad_lexer.specs.Tokens.{IsToken, Tokens, Fault};

/// Each text has one list of tokens or one fault, and not both.
pub fn one_answer(text: &[u8])
    ensures some { ((list : List Lexeme) × Tokens text.now list) ⊎ ((kind : LexKind) × (place : ℕ) × Fault text.now kind place) }
    ensures one_list { (list other : List Lexeme) → Tokens text.now list → Tokens text.now other → list ≡ other }
    ensures one_fault { (kind other : LexKind) (place next : ℕ) → Fault text.now kind place → Fault text.now other next → (kind ≡ other) × (place ≡ next) }
    ensures not_both { (list : List Lexeme) (kind : LexKind) (place : ℕ) → Tokens text.now list → Fault text.now kind place → ⊥ }
{}

/// The tokens of a text are parts of it, in order, and each is spelled by its kind.
#[tactic(auto, using(crate::proofs::SliceLemmas::tokens_slices))]
pub fn tokens_are_slices(text: &[u8])
    ensures { (list : List Lexeme) → Tokens text.now list → AreTokensOf text.now 0 list }
{}

/// What is spelled as a token of a kind is one, whatever follows a string or a quoted name, and before a byte that
/// doesn't go on with a word, a number or a symbol.
#[tactic(auto, using(crate::proofs::AloneLemmas::alone_token))]
pub fn spelling_stands(spelling: &[u8], after: &[u8])
    ensures { (kind : TokenKind) → Spells kind spelling.now → Ends kind spelling.now (slice_index after.now 0) → IsToken kind spelling.now after.now }
{}

/// Bytes spell one kind of token only.
#[tactic(auto, using(crate::proofs::ItemLemmas::same_kind))]
pub fn one_kind(spelling: &[u8])
    ensures { (kind other : TokenKind) → Spells kind spelling.now → Spells other spelling.now → kind ≡ other }
{}

/// The text that a string or a quoted name means is the content of its bytes.
pub fn one_content(spelling: &[u8])
    ensures string { (text : List ℕ) → IsQuoted 34 spelling.now text → content spelling.now ≡ text }
    ensures name { (text : List ℕ) → IsQuoted 39 spelling.now text → content spelling.now ≡ text }
{}

/// The value of an integer fits 63 bits.
pub fn integer_fits(spelling: &[u8])
    ensures { Spells TokenKind.Int spelling.now → value spelling.now < 2 ^ 63 }
{}

/// The millionths of a decimal fit 63 bits.
#[tactic(auto, using(crate::proofs::FractionLemmas::decimal_small))]
pub fn decimal_fits(spelling: &[u8])
    ensures { Spells TokenKind.Dec spelling.now → millionths spelling.now < 2 ^ 63 }
{}

/// The decimal text of a number below 2^63 is an integer with that value.
pub fn decimal_spells(number: u64)
    requires { number < 2 ^ 63 }
    ensures spells { Spells TokenKind.Int (decimal number) }
    ensures value { value (decimal number) ≡ number }
{}

/// The text of fewer than 2^63 millionths is a decimal of so many.
pub fn millionths_spell(number: u64)
    requires { number < 2 ^ 63 }
    ensures spells { Spells TokenKind.Dec (size_text number) }
    ensures value { millionths (size_text number) ≡ number }
{}

/// Each string and each quoted name of a text means UTF-8 without byte 0, and a quoted name means some byte.
pub fn tokens_mean_texts(text: &[u8])
    ensures { (list : List Lexeme) → Tokens text.now list → MeanTexts list }
{}

/// A string or a quoted name is UTF-8 exactly where the text that it means is.
pub fn quoted_in_utf8(spelling: &[u8])
    ensures string { (text : List ℕ) → IsQuoted 34 spelling.now text → (IsUtf8 spelling.now ↔ IsUtf8 text) }
    ensures name { (text : List ℕ) → IsQuoted 39 spelling.now text → (IsUtf8 spelling.now ↔ IsUtf8 text) }
{}
