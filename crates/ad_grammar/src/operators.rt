// The tables of operators.
ghost use Rattle.std.specs.Prelude.{◌≡◌};
ghost use Rattle.ad_grammar.specs.Operators.{infix_of, precedence, prefix_of};
ghost use Rattle.ad_grammar.specs.HeldMarks.{ends, extends};

use ad_builder::Infix;
use ad_lexer::Mark;
use pool_text::{BinOp, UnOp};

/// The operator that a mark is between two operands, and its precedence.
pub fn infix_of(mark: Mark) -> Option<(usize, Infix)>
    ensures { result ≡ infix_of mark }
{
    match mark {
        Mark::Binary(op) => Some((precedence(op), Infix::Binary(op))),
        Mark::And => Some((9, Infix::And)),
        Mark::Or => Some((10, Infix::Or)),
        _ => None,
    }
}

fn precedence(op: BinOp) -> usize
    ensures { result ≡ precedence op }
{
    match op {
        BinOp::Mul | BinOp::Div | BinOp::Rem => 1,
        BinOp::Add | BinOp::Sub => 2,
        BinOp::ShiftLeft | BinOp::ShiftRight | BinOp::ShiftZero => 3,
        BinOp::Less | BinOp::AtMost | BinOp::Greater | BinOp::AtLeast => 4,
        BinOp::Equal | BinOp::Unequal | BinOp::Same | BinOp::NotSame => 5,
        BinOp::BitAnd => 6,
        BinOp::BitXor => 7,
        BinOp::BitOr => 8,
    }
}

/// The operator that a mark is before one operand.
pub fn prefix_of(mark: Mark) -> Option<UnOp>
    ensures { result ≡ prefix_of mark }
{
    match mark {
        Mark::Binary(BinOp::Add) => Some(UnOp::Plus),
        Mark::Binary(BinOp::Sub) => Some(UnOp::Minus),
        Mark::Not => Some(UnOp::Not),
        Mark::Complement => Some(UnOp::Complement),
        _ => None,
    }
}

/// Whether the mark is one behind an expression, with which no expression goes on.
pub fn ends(mark: Option<Mark>) -> bool
    ensures { result ≡ ends mark }
{
    match mark {
        Some(Mark::Semicolon) => true,
        Some(Mark::Comma) => true,
        Some(Mark::CloseBracket) => true,
        Some(Mark::CloseBrace) => true,
        Some(Mark::CloseParen) => true,
        _ => false,
    }
}

/// Whether a word goes on with the mark: as a selection, a subscript or a call.
pub fn extends(mark: Option<Mark>) -> bool
    ensures { result ≡ extends mark }
{
    match mark {
        Some(Mark::Dot) => true,
        Some(Mark::OpenBracket) => true,
        Some(Mark::OpenParen) => true,
        _ => false,
    }
}
