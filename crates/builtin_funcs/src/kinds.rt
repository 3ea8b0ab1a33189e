// The kinds of values.
ghost use Rattle.std.specs.Prelude.{◌≡◌};
ghost use Rattle.ad_value.specs.Plain.{plain};
ghost use Rattle.ad_value.specs.Logic.{is_true};
ghost use Rattle.builtin_funcs.specs.Kinds.{is_decimal, is_error, is_scalar, is_undefined};

use ad_value::Value;

/// Whether the value is Undefined.
pub(crate) fn is_undefined(value: &Value) -> bool
    ensures { result ≡ is_undefined (plain value.now) }
{
    matches!(value, Value::Undefined)
}

/// Whether the value is Error.
pub(crate) fn is_error(value: &Value) -> bool
    ensures { result ≡ is_error (plain value.now) }
{
    matches!(value, Value::Error)
}

/// Whether the value is a Decimal.
pub(crate) fn is_decimal(value: &Value) -> bool
    ensures { result ≡ is_decimal (plain value.now) }
{
    matches!(value, Value::Decimal(_))
}

/// Whether the value is a Boolean, an Integer, a Decimal or a String.
pub(crate) fn is_scalar(value: &Value) -> bool
    ensures { result ≡ is_scalar (plain value.now) }
{
    matches!(
        value,
        Value::Boolean(_) | Value::Integer(_) | Value::Decimal(_) | Value::Str(_)
    )
}

/// Whether the value is the Boolean true.
pub(crate) fn is_true(value: &Value) -> bool
    ensures { result ≡ is_true (plain value.now) }
{
    matches!(value, Value::Boolean(true))
}
