// The small types of the ClassAd language that texts, trees and values share.
ghost use Rattle.std.specs.Prelude.{◌≡◌, ◌↔◌, IsTrue};

use crate::Text;

/// A literal of the language. A `Decimal` is a number of millionths. A parse never makes a negative number.
#[derive(Drop)]
pub enum Lit {
    Undefined,
    Error,
    Boolean(bool),
    Integer(i64),
    Decimal(i64),
    Str(Text),
}

/// A frame of an ad of a world: ad 0 is the request, ad k the k-th docked resource, and frame 0 the root.
#[derive(Clone, Copy, Debug, PartialEq, Eq)]
pub struct AdPlace {
    pub ad: u32,
    pub frame: u32,
}

/// Whether two places are equal: ad and frame.
pub fn same_place(a: &AdPlace, b: &AdPlace) -> bool
    ensures { IsTrue result ↔ (a.now ≡ b.now) }
{
    a == b
}

/// An attribute of a frame of an ad, counted from 0 in the frame's order.
#[derive(Clone, Copy, Debug, PartialEq, Eq)]
pub struct Pos {
    pub ad: u32,
    pub frame: u32,
    pub attr: u32,
}

/// Whether two positions are equal: ad, frame and attribute.
pub fn same_position(a: &Pos, b: &Pos) -> bool
    ensures { IsTrue result ↔ (a.now ≡ b.now) }
{
    a == b
}

/// The operators before one operand: `+ - ! ~`.
#[derive(Clone, Copy, PartialEq, Eq)]
pub enum UnOp {
    Plus,
    Minus,
    Not,
    Complement,
}

/// Whether two operators before one operand are equal.
pub fn same_unary(a: &UnOp, b: &UnOp) -> bool
    ensures { IsTrue result ↔ (a.now ≡ b.now) }
{
    a == b
}

/// The strict operators between two operands, with `is` (`Same`) and `isnt` (`NotSame`).
#[derive(Clone, Copy, PartialEq, Eq)]
pub enum BinOp {
    BitOr,
    BitXor,
    BitAnd,
    Equal,
    Unequal,
    Same,
    NotSame,
    Less,
    AtMost,
    Greater,
    AtLeast,
    ShiftLeft,
    ShiftRight,
    ShiftZero,
    Add,
    Sub,
    Mul,
    Div,
    Rem,
}

/// Whether two operators between operands are equal.
pub fn same_binary(a: &BinOp, b: &BinOp) -> bool
    ensures { IsTrue result ↔ (a.now ≡ b.now) }
{
    a == b
}
