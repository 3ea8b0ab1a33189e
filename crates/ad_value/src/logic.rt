// The operators that don't always demand their right side.
ghost use Rattle.std.specs.Prelude.{◌≡◌};
ghost use Rattle.ad_value.specs.Plain.{plain};
ghost use Rattle.ad_value.specs.Logic.{and_is_decided, and_value, or_is_decided, or_value};

use crate::Value;

/// The value of `left && right`, as in the ClassAd Language Reference Manual 2.4: false on the left wins over all, and
/// Undefined gives way to false and to Error on the right. An operand that is neither a Boolean nor Undefined is as Error.
pub fn and_step(left: &Value, right: &Value) -> Value
    ensures { plain result ≡ and_value (plain left.now) (plain right.now) }
{
    match (left, right) {
        (Value::Boolean(false), _) => Value::Boolean(false),
        (Value::Boolean(true), Value::Boolean(b)) => Value::Boolean(*b),
        (Value::Boolean(true), Value::Undefined) => Value::Undefined,
        (Value::Undefined, Value::Boolean(false)) => Value::Boolean(false),
        (Value::Undefined, Value::Boolean(true) | Value::Undefined) => Value::Undefined,
        _ => Value::Error,
    }
}

/// The value of `left || right`: as `&&` with true and false exchanged.
pub fn or_step(left: &Value, right: &Value) -> Value
    ensures { plain result ≡ or_value (plain left.now) (plain right.now) }
{
    match (left, right) {
        (Value::Boolean(true), _) => Value::Boolean(true),
        (Value::Boolean(false), Value::Boolean(b)) => Value::Boolean(*b),
        (Value::Boolean(false), Value::Undefined) => Value::Undefined,
        (Value::Undefined, Value::Boolean(true)) => Value::Boolean(true),
        (Value::Undefined, Value::Boolean(false) | Value::Undefined) => Value::Undefined,
        _ => Value::Error,
    }
}

/// Whether `left && ..` has its value without the right side, which then isn't demanded.
pub fn and_ends(left: &Value) -> bool
    ensures { result ≡ and_is_decided (plain left.now) }
{
    !matches!(left, Value::Boolean(true) | Value::Undefined)
}

/// Whether `left || ..` has its value without the right side, which then isn't demanded.
pub fn or_ends(left: &Value) -> bool
    ensures { result ≡ or_is_decided (plain left.now) }
{
    !matches!(left, Value::Boolean(false) | Value::Undefined)
}
