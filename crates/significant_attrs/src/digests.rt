// A number of what is marked in a request, by which twins are found. Ads with one number may differ, so whoever finds one by it
// compares the two.
use crate::twins::is_marked;
use ad_tree::{Ad, Expr, Exprs, Scope};
use pool_text::{Lit, Text};

/// A number of 64 bits of the expressions of the root that are marked: twins by these marks have the same. Frames of ad literals
/// count by their numbers alone.
pub fn digest(ad: &Ad, marks: &[bool]) -> u64 {
    let mut sum = 0;
    for k in 0..ad.count(0) {
        if is_marked(marks, k) {
            sum = of_expr(mixed(sum, u64::from(k)), ad.expr(0, k));
        }
    }
    sum
}

// A number behind another.
fn mixed(sum: u64, number: u64) -> u64 {
    sum.wrapping_mul(6364136223846793005).wrapping_add(number)
}

// The letters of a text behind a number.
fn of_text(sum: u64, text: &Text) -> u64 {
    let mut sum = mixed(sum, text.bytes().len() as u64);
    for byte in text.bytes() {
        sum = mixed(sum, u64::from(*byte));
    }
    sum
}

// A literal behind a number.
fn of_literal(sum: u64, literal: &Lit) -> u64 {
    match literal {
        Lit::Undefined => mixed(sum, 1),
        Lit::Error => mixed(sum, 2),
        Lit::Boolean(false) => mixed(sum, 3),
        Lit::Boolean(true) => mixed(sum, 4),
        Lit::Integer(n) => mixed(mixed(sum, 5), n.cast_unsigned()),
        Lit::Decimal(n) => mixed(mixed(sum, 6), n.cast_unsigned()),
        Lit::Str(text) => of_text(mixed(sum, 7), text),
    }
}

// An expression behind a number.
#[cycle(digesting)]
fn of_expr(sum: u64, expr: &Expr) -> u64 {
    match expr {
        Expr::Literal(literal) => of_literal(sum, literal),
        Expr::Name(_, name) => of_text(mixed(sum, 8), name),
        Expr::Unary(_, a) => of_expr(mixed(sum, 9), a),
        Expr::Select(a, name) => of_expr(of_text(mixed(sum, 10), name), a),
        Expr::Binary(_, a, b) => of_two(mixed(sum, 11), a, b),
        Expr::Subscript(a, b) => of_two(mixed(sum, 12), a, b),
        Expr::Cond(a, b, c) => of_two(of_expr(mixed(sum, 13), a), b, c),
        Expr::And(list) => of_all(mixed(sum, 14), list),
        Expr::Or(list) => of_all(mixed(sum, 15), list),
        Expr::List(list) => of_all(mixed(sum, 16), list),
        Expr::Call(name, list) => of_all(of_text(mixed(sum, 17), name), list),
        Expr::Frame(frame) => mixed(mixed(sum, 18), u64::from(*frame)),
    }
}

#[cycle(digesting)]
fn of_two(sum: u64, a: &Expr, b: &Expr) -> u64 {
    of_expr(of_expr(sum, a), b)
}

#[cycle(digesting)]
fn of_all(sum: u64, list: &Exprs) -> u64 {
    let mut sum = mixed(sum, list.len() as u64);
    for i in 0..list.len() {
        sum = of_expr(sum, list.at(i));
    }
    sum
}
