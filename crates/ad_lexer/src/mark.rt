// The marks that tokens are.
ghost use Rattle.std.specs.Prelude.{◌≡◌, Some};
ghost use Rattle.pool_text.specs.Folding.{folded};
ghost use Rattle.ad_lexer.specs.Marks as spec;
ghost use Rattle.ad_lexer.specs.Marks.{mark_words, meaning_of};

use pool_text::BinOp;

/// What a token is that is a symbol, or one of the words `is` and `isnt`. A `Binary` mark stands between two operands;
/// `+` and `-` may also stand before one.
#[derive(Clone, Copy, PartialEq, Eq)]
pub enum Mark {
    OpenParen,
    CloseParen,
    OpenBracket,
    CloseBracket,
    OpenBrace,
    CloseBrace,
    Comma,
    Semicolon,
    Dot,
    Assign,
    Question,
    Colon,
    And,
    Or,
    Not,
    Complement,
    Binary(BinOp),
}

/// How many constructs a mark opens: brackets of the three kinds, or a conditional.
#[inline(always)]
pub fn opening(mark: Mark) -> usize
    ensures { result ≡ spec.opening (Some mark) }
{
    match mark {
        Mark::OpenParen | Mark::OpenBracket | Mark::OpenBrace | Mark::Question => 1,
        _ => 0,
    }
}

/// `is` and `isnt` are operators.
pub fn mark_of_reserved(text: &[u8]) -> Option<Mark>
    ensures value { result ≡ meaning_of mark_words (folded text.now) }
    ensures opens { spec.opening result ≡ 0 }
{
    if text.eq_ignore_ascii_case(b"is") {
        Some(Mark::Binary(BinOp::Same))
    } else if text.eq_ignore_ascii_case(b"isnt") {
        Some(Mark::Binary(BinOp::NotSame))
    } else {
        None
    }
}
