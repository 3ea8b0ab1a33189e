// The longest symbol at the front of a text.
ghost use Rattle.std.specs.Prelude.{◌≡◌, ◌<◌, ◌≤◌, length, slice_index, IfSome, Some, None};
ghost use Rattle.ad_lexer.specs.Marks.{opening};
ghost use Rattle.ad_lexer.specs.Reading as spec;

use crate::bytes::byte_at;
use crate::fault::LexKind;
use crate::mark::Mark;
use crate::next::{Marked, Step, symbol_of, unmarked};
use pool_text::BinOp;

/// The longest symbol that the text begins with, or its fault.
#[tactic(auto, unfolding(crate::specs::Reading::symbol))]
pub fn symbol(text: &[u8]) -> Marked
    requires some { 0 < length text.now }
    requires other { spec.alone (slice_index text.now 0) ≡ None }
    ensures value { result.step ≡ spec.symbol text.now }
    ensures within { spec.IsWithin (length text.now) result.step }
    ensures marked { spec.IsMarked text.now result.step result.mark }
    ensures opens { opening result.mark ≡ 0 }
{
    let second = byte_at(text, 1);
    if text[0] == b'.' && second.is_ascii_digit() {
        return unmarked(Step::Fault(LexKind::Decimal, 0));
    }
    match longest(text[0], second, byte_at(text, 2)) {
        Some((mark, len)) => symbol_of(mark, len),
        None => unmarked(Step::Fault(LexKind::Character, 0)),
    }
}

/// The mark of a byte that is a symbol however the text goes on.
#[inline(always)]
pub fn alone(byte: u8) -> Option<Mark>
    ensures { result ≡ spec.alone byte }
{
    Some(match byte {
        b'(' => Mark::OpenParen,
        b')' => Mark::CloseParen,
        b'[' => Mark::OpenBracket,
        b']' => Mark::CloseBracket,
        b'{' => Mark::OpenBrace,
        b'}' => Mark::CloseBrace,
        b',' => Mark::Comma,
        b';' => Mark::Semicolon,
        b'?' => Mark::Question,
        b':' => Mark::Colon,
        b'~' => Mark::Complement,
        b'^' => Mark::Binary(BinOp::BitXor),
        b'+' => Mark::Binary(BinOp::Add),
        b'-' => Mark::Binary(BinOp::Sub),
        b'*' => Mark::Binary(BinOp::Mul),
        b'%' => Mark::Binary(BinOp::Rem),
        _ => return None,
    })
}

/// The longest symbol that these bytes begin with, and its length.
#[tactic(auto, unfolding(crate::specs::Reading::symbol_len))]
fn longest(first: u8, second: u8, third: u8) -> Option<(Mark, usize)>
    requires { spec.alone first ≡ None }
    ensures value { spec.IsLongest first second third result }
    ensures within { IfSome result (λ found. (0 < found.1) × (found.1 ≤ 3) × (2 ≤ found.1 → 0 < second) × (3 ≤ found.1 → 0 < third)) }
    ensures opens { IfSome result (λ found. opening (Some found.0) ≡ 0) }
{
    Some(match (first, second, third) {
        (b'=', b'=', _) => (Mark::Binary(BinOp::Equal), 2),
        (b'=', b'?', b'=') => (Mark::Binary(BinOp::Same), 3),
        (b'=', b'!', b'=') => (Mark::Binary(BinOp::NotSame), 3),
        (b'=', _, _) => (Mark::Assign, 1),
        (b'>', b'>', b'>') => (Mark::Binary(BinOp::ShiftZero), 3),
        (b'>', b'>', _) => (Mark::Binary(BinOp::ShiftRight), 2),
        (b'>', b'=', _) => (Mark::Binary(BinOp::AtLeast), 2),
        (b'>', _, _) => (Mark::Binary(BinOp::Greater), 1),
        (b'<', b'<', _) => (Mark::Binary(BinOp::ShiftLeft), 2),
        (b'<', b'=', _) => (Mark::Binary(BinOp::AtMost), 2),
        (b'<', _, _) => (Mark::Binary(BinOp::Less), 1),
        (b'!', b'=', _) => (Mark::Binary(BinOp::Unequal), 2),
        (b'!', _, _) => (Mark::Not, 1),
        (b'&', b'&', _) => (Mark::And, 2),
        (b'&', _, _) => (Mark::Binary(BinOp::BitAnd), 1),
        (b'|', b'|', _) => (Mark::Or, 2),
        (b'|', _, _) => (Mark::Binary(BinOp::BitOr), 1),
        (b'.', _, _) => (Mark::Dot, 1),
        (b'/', _, _) => (Mark::Binary(BinOp::Div), 1),
        _ => (alone(first)?, 1),
    })
}
