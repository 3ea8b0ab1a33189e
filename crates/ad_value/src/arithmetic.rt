// The rows of the strict operators for two numbers.
ghost use Rattle.std.specs.Prelude.{◌≡◌, ◌*◌, ◌/◌, ◌^◌, ◌≤◌, ◌⊎◌, FitsSigned, MatchOption, unsigned_abs};
ghost use Rattle.std.specs.Int.{cast_signed, cast_unsigned, int_shl, int_shr, w64};
ghost use Rattle.ad_value.specs.Plain.{error, integer, plain};
ghost use Rattle.ad_value.specs.Numbers.{decimal_or_error};
ghost use Rattle.ad_value.specs.Operators.{binary_value, decimal_row, integer_row, number_row, shifted};

use crate::{MILLION, Number, Value};
use pool_text::BinOp;

/// The Integer that was calculated, and Error where there is none.
pub(crate) fn integer_result(calculated: Option<i64>) -> Value
    ensures { MatchOption calculated (plain result ≡ error) (λ n. plain result ≡ integer n) }
{
    match calculated {
        Some(n) => Value::Integer(n),
        None => Value::Error,
    }
}

/// The Decimal of so many millionths, and Error where they are out of 64 bits.
pub(crate) fn decimal_result(millionths: i128) -> Value
    ensures { plain result ≡ decimal_or_error millionths }
{
    match i64::try_from(millionths) {
        Ok(fitting) => Value::Decimal(fitting),
        Err(_) => Value::Error,
    }
}

/// The result of a strict operator for two numbers.
pub(crate) fn on_numbers(op: BinOp, x: Number, y: Number) -> Value
    ensures { plain result ≡ number_row op x y }
{
    match (x, y) {
        (Number::Whole(x), Number::Whole(y)) => on_whole(op, x, y),
        _ => on_decimals(op, x.in_millionths(), y.in_millionths()),
    }
}

// The result of a strict operator for two whole numbers.
fn on_whole(op: BinOp, x: i64, y: i64) -> Value
    ensures { plain result ≡ integer_row op x y }
{
    match op {
        // `is` and `isnt` aren't strict, and have rows of their own.
        BinOp::Same | BinOp::NotSame => Value::Error,
        _ => on_integers(op, x, y),
    }
}

/// The value of `x op y` for two Integers.
pub(crate) fn on_integers(op: BinOp, x: i64, y: i64) -> Value
    ensures { plain result ≡ binary_value op (integer x) (integer y) }
{
    match op {
        BinOp::BitOr => Value::Integer(x | y),
        BinOp::BitXor => Value::Integer(x ^ y),
        BinOp::BitAnd => Value::Integer(x & y),
        BinOp::Equal | BinOp::Same => Value::Boolean(x == y),
        BinOp::Unequal | BinOp::NotSame => Value::Boolean(x != y),
        BinOp::Less => Value::Boolean(x < y),
        BinOp::AtMost => Value::Boolean(x <= y),
        BinOp::Greater => Value::Boolean(x > y),
        BinOp::AtLeast => Value::Boolean(x >= y),
        BinOp::ShiftLeft => shift_left(x, y),
        BinOp::ShiftRight => shift_right(x, y),
        BinOp::ShiftZero => shift_zero(x, y),
        BinOp::Add => integer_result(x.checked_add(y)),
        BinOp::Sub => integer_result(x.checked_sub(y)),
        BinOp::Mul => integer_result(x.checked_mul(y)),
        BinOp::Div => integer_result(x.checked_div(y)),
        BinOp::Rem => remainder(x, y),
    }
}

// `x << y`: the bits that leave are dropped.
fn shift_left(x: i64, y: i64) -> Value
    ensures { plain result ≡ shifted (int_shl w64 x) y }
{
    if y < 0 || y > 63 {
        Value::Error
    } else {
        Value::Integer(x << y)
    }
}

// `x >> y`, which keeps the sign.
fn shift_right(x: i64, y: i64) -> Value
    ensures { plain result ≡ shifted (int_shr x) y }
{
    if y < 0 || y > 63 {
        Value::Error
    } else {
        Value::Integer(x >> y)
    }
}

// `x >>> y`, which fills with zeros.
fn shift_zero(x: i64, y: i64) -> Value
    ensures { plain result
        ≡ shifted (λ places. cast_signed w64 (cast_unsigned w64 x / 2 ^ places)) y }
{
    if y < 0 || y > 63 {
        Value::Error
    } else {
        Value::Integer((x.cast_unsigned() >> y).cast_signed())
    }
}

// `x % y`, with the sign of x; by -1 it is 0, also where the quotient is out of 64 bits.
fn remainder(x: i64, y: i64) -> Value
    ensures { plain result ≡ integer_row BinOp.Rem x y }
{
    if y == 0 {
        Value::Error
    } else {
        Value::Integer(x.wrapping_rem(y))
    }
}

// The result of a strict operator for two numbers in millionths, of which one is a Decimal.
fn on_decimals(op: BinOp, x: i128, y: i128) -> Value
    requires left { unsigned_abs x ≤ 2 ^ 63 * 1000000 }
    requires right { unsigned_abs y ≤ 2 ^ 63 * 1000000 }
    requires decimal { FitsSigned w64 x ⊎ FitsSigned w64 y }
    ensures { plain result ≡ decimal_row op x y }
{
    match op {
        BinOp::Equal => Value::Boolean(x == y),
        BinOp::Unequal => Value::Boolean(x != y),
        BinOp::Less => Value::Boolean(x < y),
        BinOp::AtMost => Value::Boolean(x <= y),
        BinOp::Greater => Value::Boolean(x > y),
        BinOp::AtLeast => Value::Boolean(x >= y),
        BinOp::Add => decimal_result(x + y),
        BinOp::Sub => decimal_result(x - y),
        BinOp::Mul => product(x, y),
        BinOp::Div => quotient(x, y),
        BinOp::Rem => remainder_of_decimals(x, y),
        _ => Value::Error,
    }
}

// `x * y`, cut towards zero. What is out of 128 bits is out of 64 after the cut, too.
fn product(x: i128, y: i128) -> Value
    ensures { plain result ≡ decimal_row BinOp.Mul x y }
{
    match x.checked_mul(y) {
        Some(exact) => decimal_result(exact / MILLION),
        None => Value::Error,
    }
}

// `x / y`, cut towards zero.
fn quotient(x: i128, y: i128) -> Value
    requires { unsigned_abs x ≤ 2 ^ 63 * 1000000 }
    ensures { plain result ≡ decimal_row BinOp.Div x y }
{
    if y == 0 {
        Value::Error
    } else {
        decimal_result(x * MILLION / y)
    }
}

// `x % y`, with the sign of x. It is no further from zero than x, and nearer to it than y.
#[tactic(auto, using(crate::proofs::RemainderLemmas::remainder_in))]
fn remainder_of_decimals(x: i128, y: i128) -> Value
    requires left { unsigned_abs x ≤ 2 ^ 63 * 1000000 }
    requires decimal { FitsSigned w64 x ⊎ FitsSigned w64 y }
    ensures { plain result ≡ decimal_row BinOp.Rem x y }
{
    if y == 0 {
        Value::Error
    } else {
        decimal_result(x % y)
    }
}
