// The rows from one kind of value to another: `string`, `int` and `bool`.
ghost use Rattle.std.specs.Prelude.{◌≡◌, ◌++◌, IfOk, OnOk};
ghost use Rattle.ad_value.specs.Plain.{plain};
ghost use Rattle.builtin_funcs.specs.Texts.{bool_value, boolean_in, int_value, integer_in, string_value, written};

use crate::kinds::is_scalar;
use ad_value::{Number, Value};
use pool_text::{OutOfMemory, Text, append_decimal, append_number, same_folded};
use std::alloc::Global;

/// Appends a String as it is, an Integer in decimal, a Decimal as it prints and a Boolean as `true` or `false`, and nothing for another kind.
pub(crate) fn append_written(out: &mut Text, value: &Value) -> Result<(), OutOfMemory>
    ensures { OnOk result (out.new ≡ out.old ++ written (plain value.now)) }
{
    match value {
        Value::Str(text) => out.append(text.bytes()),
        Value::Integer(n) => append_number(out, *n),
        Value::Decimal(millionths) => append_decimal(out, i128::from(*millionths)),
        Value::Boolean(true) => out.append(b"true"),
        Value::Boolean(false) => out.append(b"false"),
        _ => Ok(()),
    }
}

/// A Boolean, an Integer, a Decimal or a String as a String.
pub(crate) fn string(alloc: Global, x: &Value) -> Result<Value, OutOfMemory>
    ensures { IfOk result (λ v. plain v ≡ string_value (plain x.now)) }
{
    if !is_scalar(x) {
        return Ok(Value::Error);
    }
    let mut out = Text::new(alloc);
    append_written(&mut out, x)?;
    Ok(Value::Str(out))
}

/// A number as an Integer, a Decimal cut towards zero, or the Integer that a String writes.
pub(crate) fn int(x: &Value) -> Value
    ensures { plain result ≡ int_value (plain x.now) }
{
    match x {
        Value::Integer(n) => Value::Integer(*n),
        Value::Decimal(millionths) => Value::Integer(Number::Millionths(*millionths).whole_part()),
        Value::Boolean(b) => Value::Integer(i64::from(*b)),
        Value::Str(text) => integer_in(text.bytes()),
        _ => Value::Error,
    }
}

// The Integer of an optional sign and one or more decimal digits.
fn integer_in(bytes: &[u8]) -> Value
    ensures { plain result ≡ integer_in bytes.now }
{
    let Ok(text) = str::from_utf8(bytes) else {
        return Value::Error;
    };
    match text.parse::<i64>() {
        Ok(n) => Value::Integer(n),
        Err(_) => Value::Error,
    }
}

/// A Boolean, whether an Integer or a Decimal isn't 0, or the Boolean that a String names.
pub(crate) fn boolean(x: &Value) -> Value
    ensures { plain result ≡ bool_value (plain x.now) }
{
    match x {
        Value::Boolean(b) => Value::Boolean(*b),
        Value::Integer(n) => Value::Boolean(*n != 0),
        Value::Decimal(millionths) => Value::Boolean(*millionths != 0),
        Value::Str(text) => boolean_in(text.bytes()),
        _ => Value::Error,
    }
}

fn boolean_in(bytes: &[u8]) -> Value
    ensures { plain result ≡ boolean_in bytes.now }
{
    if same_folded(bytes, b"true") {
        Value::Boolean(true)
    } else if same_folded(bytes, b"false") {
        Value::Boolean(false)
    } else {
        Value::Error
    }
}
