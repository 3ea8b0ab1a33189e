// The literals that tokens mean.
ghost use Rattle.std.specs.Prelude.{◌≡◌, None, Some};
ghost use Rattle.ad_lexer.specs.Spelling.{Spells};
ghost use Rattle.ad_lexer.specs.Lexeme.{lexeme};
ghost use Rattle.ad_lexer.specs.Marks.{meaning_of};
ghost use Rattle.ad_lexer.specs.declared.token.TokenKind.TheVariants as kinds;
ghost use Rattle.ad_grammar.specs.HeldMarks.{unmarked};
ghost use Rattle.ad_grammar.specs.Words.{or_undefined, constant, reserved_words, word};
ghost use Rattle.pool_text.specs.Folding.{folded};
ghost use Rattle.pool_text.specs.declared.language.Lit.{Lit as MeantLit};

use ad_lexer::{Token, TokenKind, decimal, integer};
use pool_text::Lit;

/// The literal that a token is, of those that are neither marks nor strings.
#[inline(always)]
pub fn literal(token: &Token<'_>) -> Option<Lit>
    requires { ∥ Spells token.now.kind token.now.text.now ∥₁ }
    ensures some { (lit : MeantLit) → result ≡ Some lit → unmarked (word (lexeme token.now)) ≡ constant lit }
    ensures none { result ≡ None → (lit : MeantLit) → word (lexeme token.now) ≡ constant lit → token.now.kind ≡ kinds.Str }
{
    let text = token.text;
    match token.kind {
        TokenKind::Int => Some(Lit::Integer(integer(text))),
        TokenKind::Dec => Some(Lit::Decimal(decimal(text))),
        TokenKind::Reserved => Some(reserved(text)),
        TokenKind::Symbol => Some(Lit::Undefined),
        TokenKind::Str => None,
        TokenKind::Plain => None,
        TokenKind::Quoted => None,
    }
}

/// The literal of a reserved word that is no operator.
fn reserved(text: &[u8]) -> Lit
    ensures { constant result ≡ unmarked (or_undefined (meaning_of reserved_words (folded text.now))) }
{
    if text.eq_ignore_ascii_case(b"true") {
        Lit::Boolean(true)
    } else if text.eq_ignore_ascii_case(b"false") {
        Lit::Boolean(false)
    } else if text.eq_ignore_ascii_case(b"error") {
        Lit::Error
    } else {
        Lit::Undefined
    }
}
