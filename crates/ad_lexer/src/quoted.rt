// Strings and quoted names.
ghost use Rattle.std.specs.Prelude.{◌==◌, ◌||◌, true, ◌≡◌, ◌+◌, ◌<◌, ◌≤◌, ◌^◌, length, is_some};
ghost use Rattle.ad_lexer.specs.Reading as spec;

use crate::bytes::{Class, behind, byte_at, run_len};
use crate::escape::{escaped, is_octal_digit, octal_len, octal_value};
use crate::fault::LexKind;
use crate::next::Step;
use crate::token::TokenKind;

/// What stands at the front of the rest of a string: a letter with its length and the byte that it means, the closing
/// quote, the line's or the text's end, byte 0, or a backslash that no escape follows.
#[derive(Clone, Copy)]
pub enum Front {
    Letter(usize, u8),
    Close,
    LineEnd,
    Nul,
    Backslash,
}

/// The quoted name that the text begins with, or its fault.
#[tactic(auto, unfolding(crate::specs::Reading::name))]
pub fn name(text: &[u8]) -> Step
    requires some { 0 < length text.now }
    requires room { length text.now < 2 ^ 32 }
    ensures value { result ≡ spec.name text.now }
    ensures within { spec.IsWithin (length text.now) result }
{
    if byte_at(text, 1) == b'\'' {
        Step::Fault(LexKind::Character, 0)
    } else {
        quoted(TokenKind::Quoted, b'\'', behind(text, 1))
    }
}

/// The string that the text begins with, or its fault.
#[tactic(auto, unfolding(crate::specs::Reading::string))]
pub fn string(text: &[u8]) -> Step
    requires some { 0 < length text.now }
    requires room { length text.now < 2 ^ 32 }
    ensures value { result ≡ spec.string text.now }
    ensures within { spec.IsWithin (length text.now) result }
{
    quoted(TokenKind::Str, b'"', behind(text, 1))
}

/// The quoted text whose opening quote stands before these bytes, or its fault, with places from that quote. It stands in the
/// loop over a text, since a call takes as long as the few letters of most strings.
#[inline(always)]
fn quoted(kind: TokenKind, quote: u8, text: &[u8]) -> Step
    requires quoted { (quote == 34 || quote == 39) ≡ true }
    requires room { length text.now + 1 < 2 ^ 32 }
    ensures value { result ≡ spec.quoted kind quote 1 0 text.now }
    ensures within { spec.IsWithin (1 + length text.now) result }
{
    let mut at = 1;
    let mut rest = text;
    loop {
        let plain = run_len(Class::Plain, rest);
        at += plain;
        rest = behind(rest, plain);
        match front_of(quote, rest) {
            Front::Letter(len, _) => {
                at += len;
                rest = behind(rest, len);
            }
            Front::Close => return Step::Token(kind, at + 1),
            Front::LineEnd => return Step::Fault(LexKind::StringEnd, 0),
            Front::Nul => return Step::Fault(LexKind::Character, at),
            Front::Backslash => return Step::Fault(LexKind::Escape, at),
        }
    }
}

/// What stands at the front of the rest of a string that this quote closes.
#[tactic(auto, unfolding(crate::specs::Reading::front))]
#[inline(always)]
pub fn front_of(quote: u8, text: &[u8]) -> Front
    ensures value { result ≡ spec.front quote text.now }
    ensures within { spec.IsLetterWithin 0 (length text.now) result }
{
    let [byte, rest @ ..] = text else {
        return Front::LineEnd;
    };
    if *byte == quote {
        return Front::Close;
    }
    match byte {
        b'\n' => Front::LineEnd,
        0 => Front::Nul,
        b'\\' => escape(rest),
        _ => Front::Letter(1, *byte),
    }
}

/// What a backslash before these bytes begins. Few letters are escapes, so that it stays out of the loops over letters.
#[tactic(auto, unfolding(crate::specs::Reading::escape))]
#[inline(never)]
fn escape(text: &[u8]) -> Front
    ensures value { result ≡ spec.escape text.now }
    ensures within { spec.IsLetterWithin 1 (length text.now) result }
{
    let [byte, ..] = text else {
        return Front::LineEnd;
    };
    match escaped(*byte) {
        Some(meant) => Front::Letter(2, meant),
        None => octal(*byte, byte_at(text, 1), byte_at(text, 2)),
    }
}

/// The letter of an escape of up to three octal digits, whose value is 1 to 127.
#[tactic(auto, unfolding(crate::specs::Reading::octal))]
fn octal(first: u8, second: u8, third: u8) -> Front
    ensures value { result ≡ spec.octal first second third }
    ensures within { spec.HasOctal second third result }
{
    let value = octal_value(first, second, third);
    if is_octal_digit(first) && 0 < value && value < 128 {
        Front::Letter(octal_len(second, third), value as u8)
    } else {
        Front::Backslash
    }
}
