// Operators: their bytes and how loosely they bind.
ghost use Rattle.std.specs.Prelude.{◌≡◌, ℕ};
ghost use Rattle.ad_grammar.specs.Operators.{precedence};
ghost use Rattle.ad_tree.specs.Inline.{Defs, inlined};
ghost use Rattle.ad_tree.specs.Tree.{tree};
ghost use Rattle.ad_printer.specs.Pieces.{infix_bytes, prefix_bytes, spaced, text_of};
ghost use Rattle.ad_printer.specs.Printed.{loose};

use ad_tree::Expr;
use pool_text::{BinOp, Lit, UnOp};

/// An operator before its operand.
pub fn prefix_text(op: UnOp) -> &'static [u8]
    ensures { result.now ≡ prefix_bytes op }
{
    match op {
        UnOp::Plus => b"+",
        UnOp::Minus => b"-",
        UnOp::Not => b"!",
        UnOp::Complement => b"~",
    }
}

/// An operator between two operands, with the spaces round it.
pub fn infix_text(op: BinOp) -> &'static [u8]
    ensures { result.now ≡ text_of (spaced (infix_bytes op)) }
{
    match op {
        BinOp::BitOr => b" | ",
        BinOp::BitXor => b" ^ ",
        BinOp::BitAnd => b" & ",
        BinOp::Equal => b" == ",
        BinOp::Unequal => b" != ",
        BinOp::Same => b" =?= ",
        BinOp::NotSame => b" =!= ",
        BinOp::Less => b" < ",
        BinOp::AtMost => b" <= ",
        BinOp::Greater => b" > ",
        BinOp::AtLeast => b" >= ",
        BinOp::ShiftLeft => b" << ",
        BinOp::ShiftRight => b" >> ",
        BinOp::ShiftZero => b" >>> ",
        BinOp::Add => b" + ",
        BinOp::Sub => b" - ",
        BinOp::Mul => b" * ",
        BinOp::Div => b" / ",
        BinOp::Rem => b" % ",
    }
}

/// How loosely an operator between two operands binds, from 1 for `*` to 8 for `|`.
pub fn precedence(op: BinOp) -> u8
    ensures { result ≡ precedence op }
{
    match op {
        BinOp::Mul | BinOp::Div | BinOp::Rem => 1,
        BinOp::Add | BinOp::Sub => 2,
        BinOp::ShiftLeft | BinOp::ShiftRight | BinOp::ShiftZero => 3,
        BinOp::Less | BinOp::AtMost | BinOp::Greater | BinOp::AtLeast => 4,
        BinOp::Equal | BinOp::Unequal | BinOp::Same | BinOp::NotSame => 5,
        BinOp::BitAnd => 6,
        BinOp::BitXor => 7,
        BinOp::BitOr => 8,
    }
}

/// How loosely an expression binds, from 0 for what may stand before a dot to 13 for `? :`.
pub fn loose(expr: &Expr) -> u8
    ensures { (open_frame : ℕ → Defs) → result ≡ loose (inlined open_frame (tree expr.now)) }
{
    match expr {
        Expr::Literal(Lit::Integer(_) | Lit::Decimal(_)) => 1,
        Expr::Unary(..) => 2,
        Expr::Binary(op, _, _) => 2 + precedence(*op),
        Expr::And(_) => 11,
        Expr::Or(_) => 12,
        Expr::Cond(..) => 13,
        _ => 0,
    }
}
