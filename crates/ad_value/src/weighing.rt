// How much a value weighs.
ghost use Rattle.std.specs.Prelude.{◌≡◌, ◌-◌, ◌^◌, min};
ghost use Rattle.ad_value.specs.Plain.{plain};
ghost use Rattle.ad_value.specs.Operators.{weight_of};
ghost use Rattle.ad_value.specs.Limits.{bounded};

use crate::Value;

/// The greatest weight of a list literal and of a function's result.
pub(crate) const WEIGHT_LIMIT: u64 = 65536;

/// The weight of a value: 1, and the bytes of a text, and the weights of a list's elements; 2^64 - 1 where that is more. A list
/// has the weight with it, so that none is walked.
#[inline]
pub fn weight(v: &Value) -> u64
    ensures { result ≡ min (weight_of (plain v.now)) (2 ^ 64 - 1) }
{
    match v {
        Value::Str(text) => (text.bytes().len() as u64).saturating_add(1),
        Value::List(values) => values.weight().saturating_add(1),
        _ => 1,
    }
}

/// The value, or Error in its place where it weighs more than 65,536, as the results of functions and list literals do.
pub fn bounded(value: Value) -> Value
    ensures { plain result ≡ bounded (plain value) }
{
    if weight(&value) > WEIGHT_LIMIT {
        return Value::Error;
    }
    value
}
