// Operators on literals as they stand, with no value made of a text.
ghost use Rattle.std.specs.Prelude.{◌≡◌};
ghost use Rattle.ad_value.specs.Operators.{binary_value, is_same, strict, strict_row};
ghost use Rattle.ad_value.specs.Logic.{is_true};
ghost use Rattle.ad_value.specs.Plain.{integer, plain, plain_of_lit, text};

use crate::arithmetic::on_numbers;
use crate::folding::equal_texts;
use crate::operators::on_compared_texts;
use crate::{Number, Value};
use pool_text::{BinOp, Lit, order_folded};

/// Whether `a op b` is true for two literals. It takes no memory.
pub fn is_true_of_literals(op: BinOp, a: &Lit, b: &Lit) -> bool
    ensures { result ≡ is_true (binary_value op (plain_of_lit a.now) (plain_of_lit b.now)) }
{
    match (a, b) {
        (Lit::Integer(x), Lit::Integer(y)) => is_true_of_integers(op, *x, *y),
        (Lit::Str(x), Lit::Str(y)) => is_true_of_texts(op, x.bytes(), y.bytes()),
        _ => is_true(&by_operator(op, a, b)),
    }
}

/// Whether `x op y` is true for two Integers.
#[inline(always)]
pub fn is_true_of_integers(op: BinOp, x: i64, y: i64) -> bool
    ensures { result ≡ is_true (binary_value op (integer x) (integer y)) }
{
    match op {
        BinOp::Equal | BinOp::Same => x == y,
        BinOp::Unequal | BinOp::NotSame => x != y,
        BinOp::Less => x < y,
        BinOp::AtMost => x <= y,
        BinOp::Greater => x > y,
        BinOp::AtLeast => x >= y,
        _ => false,
    }
}

// Whether `a op b` is true for two texts.
fn is_true_of_texts(op: BinOp, a: &[u8], b: &[u8]) -> bool
    ensures { result ≡ is_true (binary_value op (text a.now) (text b.now)) }
{
    match op {
        BinOp::Same => a == b,
        BinOp::NotSame => a != b,
        BinOp::Equal => equal_texts(a, b),
        BinOp::Unequal => !equal_texts(a, b),
        BinOp::Less => order_folded(a, b).is_lt(),
        BinOp::AtMost => order_folded(a, b).is_le(),
        BinOp::Greater => order_folded(a, b).is_gt(),
        BinOp::AtLeast => order_folded(a, b).is_ge(),
        _ => false,
    }
}

// The value of `a op b` for literals of any kinds.
fn by_operator(op: BinOp, a: &Lit, b: &Lit) -> Value
    ensures { plain result ≡ binary_value op (plain_of_lit a.now) (plain_of_lit b.now) }
{
    match op {
        BinOp::Same => Value::Boolean(are_same(a, b)),
        BinOp::NotSame => Value::Boolean(!are_same(a, b)),
        _ => strict_result(op, a, b),
    }
}

// Whether the value is the Boolean true.
fn is_true(value: &Value) -> bool
    ensures { result ≡ is_true (plain value.now) }
{
    matches!(value, Value::Boolean(true))
}

// `a is b`.
fn are_same(a: &Lit, b: &Lit) -> bool
    ensures { result ≡ is_same (plain_of_lit a.now) (plain_of_lit b.now) }
{
    match (a, b) {
        (Lit::Undefined, Lit::Undefined) | (Lit::Error, Lit::Error) => true,
        (Lit::Boolean(x), Lit::Boolean(y)) => *x == *y,
        (Lit::Integer(x), Lit::Integer(y)) => *x == *y,
        (Lit::Decimal(x), Lit::Decimal(y)) => *x == *y,
        (Lit::Str(x), Lit::Str(y)) => x.bytes() == y.bytes(),
        _ => false,
    }
}

// The value of `a op b` where the operator is strict.
fn strict_result(op: BinOp, a: &Lit, b: &Lit) -> Value
    ensures { plain result ≡ strict (strict_row op) (plain_of_lit a.now) (plain_of_lit b.now) }
{
    match (a, b) {
        (Lit::Error, _) | (_, Lit::Error) => Value::Error,
        (Lit::Undefined, _) | (_, Lit::Undefined) => Value::Undefined,
        (Lit::Str(x), Lit::Str(y)) => on_compared_texts(op, x.bytes(), y.bytes()),
        _ => match (Number::of_literal(a), Number::of_literal(b)) {
            (Some(x), Some(y)) => on_numbers(op, x, y),
            _ => Value::Error,
        },
    }
}
