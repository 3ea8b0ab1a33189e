// Whether frames and expressions of two ads are the same, found with no memory taken.
ghost use Rattle.std.specs.Prelude.{◌≡◌, ◌↔◌, ◌<◌, IsTrue, length};
ghost use Rattle.ad_tree.specs.Ad.{ad_frames};
ghost use Rattle.ad_tree.specs.Frames.{attributes_at};
ghost use Rattle.ad_tree.specs.Tree.{tree, trees, two};

use crate::literal::same_literal;
use crate::{Ad, Expr, Exprs, scopes_are_equal};
use pool_text::{same_binary, same_unary};

/// Whether a frame of two ads has the same attributes: as many, in the same order, each name spelled alike. No memory is taken.
pub fn same_attributes(a: &Ad, b: &Ad, frame: u32) -> bool
    requires first { frame < length (ad_frames a.now) }
    requires second { frame < length (ad_frames b.now) }
    ensures { IsTrue result ↔ (attributes_at (ad_frames a.now) frame ≡ attributes_at (ad_frames b.now) frame) }
{
    if a.count(frame) != b.count(frame) {
        return false;
    }
    for k in 0..a.count(frame) {
        // Most ads that differ do in a number, which is compared in less time than a name.
        if !same_expr(a.expr(frame, k), b.expr(frame, k)) {
            return false;
        }
        if a.name(frame, k) != b.name(frame, k) {
            return false;
        }
    }
    true
}

/// Whether two expressions have the same tree.
#[cycle(alike)]
pub fn same_expr(a: &Expr, b: &Expr) -> bool
    ensures { IsTrue result ↔ (tree a.now ≡ tree b.now) }
{
    match (a, b) {
        (Expr::Literal(x), Expr::Literal(y)) => same_literal(x, y),
        (Expr::Name(s, x), Expr::Name(t, y)) => scopes_are_equal(*s, *t) && x == y,
        (Expr::Unary(p, x), Expr::Unary(q, y)) => same_unary(p, q) && same_expr(x, y),
        (Expr::Binary(p, x, v), Expr::Binary(q, y, w)) => {
            same_binary(p, q) && same_two(x, v, y, w)
        }
        (Expr::And(x), Expr::And(y)) => same_all(x, y),
        (Expr::Or(x), Expr::Or(y)) => same_all(x, y),
        (Expr::Cond(x, v, r), Expr::Cond(y, w, s)) => same_expr(x, y) && same_two(v, r, w, s),
        (Expr::Select(x, v), Expr::Select(y, w)) => v == w && same_expr(x, y),
        (Expr::Subscript(x, v), Expr::Subscript(y, w)) => same_two(x, v, y, w),
        (Expr::Call(x, v), Expr::Call(y, w)) => x == y && same_all(v, w),
        (Expr::List(x), Expr::List(y)) => same_all(x, y),
        (Expr::Frame(f), Expr::Frame(g)) => f == g,
        _ => false,
    }
}

// Whether two expressions have the same trees as two others.
#[cycle(alike)]
fn same_two(a: &Expr, b: &Expr, c: &Expr, d: &Expr) -> bool
    ensures { IsTrue result ↔ (two (tree a.now) (tree b.now) ≡ two (tree c.now) (tree d.now)) }
{
    same_expr(a, c) && same_expr(b, d)
}

// Whether two lists of expressions are as long and have the same trees.
#[cycle(alike)]
fn same_all(a: &Exprs, b: &Exprs) -> bool
    ensures { IsTrue result ↔ (trees a.now ≡ trees b.now) }
{
    if a.len() != b.len() {
        return false;
    }
    for i in 0..a.len() {
        if !same_expr(a.at(i), b.at(i)) {
            return false;
        }
    }
    true
}
