// The operators that demand all their operands.
ghost use Rattle.std.specs.Prelude.{◌≡◌};
ghost use Rattle.ad_value.specs.Plain.{plain, text};
ghost use Rattle.ad_value.specs.Numbers.{number_value};
ghost use Rattle.ad_value.specs.Operators.{binary_value, complement, negated_value, negation, strict, strict_row, text_row, unary_row, unary_value};

use crate::arithmetic::{decimal_result, integer_result, on_integers, on_numbers};
use crate::folding::equal_texts;
use crate::{Number, Value, same};
use pool_text::{BinOp, UnOp, order_folded};

/// The value of `a op b`, with the strictness of the ClassAd Language Reference Manual 2.4.
///
/// `is` and `isnt` give a Boolean always. With any other operator Error on a side gives Error, else Undefined on a side
/// gives Undefined. Numbers are Integers, Decimals and Booleans, the latter as 1 or 0; a result out of 64 bits, a divisor 0,
/// and a shift below 0 or over 63 give Error. Where a number is a Decimal, so is the result, exact or cut towards zero to
/// millionths; numbers are compared by their exact values, and bits and shifts take no Decimal. Texts are compared after `A`
/// to `Z` are made small. All else is Error.
pub fn binary(op: BinOp, a: &Value, b: &Value) -> Value
    ensures { plain result ≡ binary_value op (plain a.now) (plain b.now) }
{
    match (a, b) {
        (Value::Integer(x), Value::Integer(y)) => on_integers(op, *x, *y),
        (Value::Str(x), Value::Str(y)) => on_texts(op, x.bytes(), y.bytes()),
        _ => by_operator(op, a, b),
    }
}

// The same for operands of any kinds.
fn by_operator(op: BinOp, a: &Value, b: &Value) -> Value
    ensures { plain result ≡ binary_value op (plain a.now) (plain b.now) }
{
    match op {
        BinOp::Same => Value::Boolean(same(a, b)),
        BinOp::NotSame => Value::Boolean(!same(a, b)),
        _ => strict_result(op, a, b),
    }
}

// The value of `a op b` where the operator is strict.
fn strict_result(op: BinOp, a: &Value, b: &Value) -> Value
    ensures { plain result ≡ strict (strict_row op) (plain a.now) (plain b.now) }
{
    match (a, b) {
        (Value::Error, _) | (_, Value::Error) => Value::Error,
        (Value::Undefined, _) | (_, Value::Undefined) => Value::Undefined,
        (Value::Str(x), Value::Str(y)) => on_compared_texts(op, x.bytes(), y.bytes()),
        _ => match (Number::of(a), Number::of(b)) {
            (Some(x), Some(y)) => on_numbers(op, x, y),
            _ => Value::Error,
        },
    }
}

/// The result of a strict operator for two texts.
pub(crate) fn on_compared_texts(op: BinOp, a: &[u8], b: &[u8]) -> Value
    ensures { plain result ≡ text_row op a.now b.now }
{
    match op {
        BinOp::Same | BinOp::NotSame => Value::Error,
        _ => on_texts(op, a, b),
    }
}

/// The value of `a op b` for two texts.
pub(crate) fn on_texts(op: BinOp, a: &[u8], b: &[u8]) -> Value
    ensures { plain result ≡ binary_value op (text a.now) (text b.now) }
{
    match op {
        BinOp::Equal => Value::Boolean(equal_texts(a, b)),
        BinOp::Unequal => Value::Boolean(!equal_texts(a, b)),
        BinOp::Same => Value::Boolean(a == b),
        BinOp::NotSame => Value::Boolean(a != b),
        BinOp::Less => Value::Boolean(order_folded(a, b).is_lt()),
        BinOp::AtMost => Value::Boolean(order_folded(a, b).is_le()),
        BinOp::Greater => Value::Boolean(order_folded(a, b).is_gt()),
        BinOp::AtLeast => Value::Boolean(order_folded(a, b).is_ge()),
        _ => Value::Error,
    }
}

/// The value of `op a`: Error and Undefined stay, `!` takes a Boolean alone, and the others give the Integer or the Decimal
/// of a number, with Error where it is out of 64 bits. `~` takes no Decimal.
pub fn unary(op: UnOp, a: &Value) -> Value
    ensures { plain result ≡ unary_value op (plain a.now) }
{
    match a {
        Value::Error => Value::Error,
        Value::Undefined => Value::Undefined,
        _ => unary_result(op, a),
    }
}

// The value of `op a`, where a is neither Error nor Undefined.
fn unary_result(op: UnOp, a: &Value) -> Value
    ensures { plain result ≡ unary_row op (plain a.now) }
{
    match (op, Number::of(a)) {
        (UnOp::Not, _) => negated(a),
        (_, None) => Value::Error,
        (UnOp::Plus, Some(number)) => as_value(number),
        (UnOp::Minus, Some(number)) => negation(number),
        (UnOp::Complement, Some(number)) => complement(number),
    }
}

// A number as a value.
fn as_value(number: Number) -> Value
    ensures { plain result ≡ number_value number }
{
    match number {
        Number::Whole(n) => Value::Integer(n),
        Number::Millionths(millionths) => Value::Decimal(millionths),
    }
}

// The number with the other sign.
fn negation(number: Number) -> Value
    ensures { plain result ≡ negation number }
{
    match number {
        Number::Whole(n) => integer_result(n.checked_neg()),
        Number::Millionths(millionths) => decimal_result(-i128::from(millionths)),
    }
}

// A whole number with all its bits turned.
fn complement(number: Number) -> Value
    ensures { plain result ≡ complement number }
{
    match number {
        Number::Whole(n) => Value::Integer(!n),
        Number::Millionths(_) => Value::Error,
    }
}

// `!a`, where a is neither Error nor Undefined.
fn negated(a: &Value) -> Value
    ensures { plain result ≡ negated_value (plain a.now) }
{
    match a {
        Value::Boolean(b) => Value::Boolean(!*b),
        _ => Value::Error,
    }
}
