// Numbers: whole ones, and ones of millionths.
ghost use Rattle.std.specs.Prelude.{◌≡◌, ◌*◌, ◌^◌, ◌≤◌, unsigned_abs};
ghost use Rattle.ad_value.specs.Plain.{plain, plain_of_lit};
ghost use Rattle.ad_value.specs.Numbers.{in_millionths, number_of, whole_part};

use crate::Value;
use pool_text::Lit;

/// How many millionths are one.
pub const MILLION: i128 = 1_000_000;

/// What the operators and the functions take for a number.
#[derive(Clone, Copy)]
pub enum Number {
    /// An Integer, or a Boolean as 1 or 0.
    Whole(i64),
    /// A Decimal, by its millionths.
    Millionths(i64),
}

impl Number {
    /// The number of a value, and none of a value of another kind.
    pub fn of(value: &Value) -> Option<Number>
        ensures { result ≡ number_of (plain value.now) }
    {
        match value {
            Value::Integer(n) => Some(Number::Whole(*n)),
            Value::Decimal(millionths) => Some(Number::Millionths(*millionths)),
            Value::Boolean(true) => Some(Number::Whole(1)),
            Value::Boolean(false) => Some(Number::Whole(0)),
            _ => None,
        }
    }

    /// The number of a literal, likewise.
    pub fn of_literal(lit: &Lit) -> Option<Number>
        ensures { result ≡ number_of (plain_of_lit lit.now) }
    {
        match lit {
            Lit::Integer(n) => Some(Number::Whole(*n)),
            Lit::Decimal(millionths) => Some(Number::Millionths(*millionths)),
            Lit::Boolean(true) => Some(Number::Whole(1)),
            Lit::Boolean(false) => Some(Number::Whole(0)),
            _ => None,
        }
    }

    /// How many millionths the number has.
    pub fn in_millionths(self) -> i128
        ensures value { result ≡ in_millionths self }
        ensures size { unsigned_abs result ≤ 2 ^ 63 * 1000000 }
    {
        match self {
            Number::Whole(n) => i128::from(n) * MILLION,
            Number::Millionths(millionths) => i128::from(millionths),
        }
    }

    /// The whole number that is left where the millionths are cut off, so that the number goes towards zero.
    pub fn whole_part(self) -> i64
        ensures { result ≡ whole_part self }
    {
        match self {
            Number::Whole(n) => n,
            Number::Millionths(millionths) => millionths / 1_000_000,
        }
    }
}
