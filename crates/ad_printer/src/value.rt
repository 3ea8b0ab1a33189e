// The text of values.
ghost use Rattle.std.specs.Prelude.{◌≡◌, ◌++◌, OnOk};
ghost use Rattle.ad_value.specs.Plain.{list as list_value, plain, plains, plains_of};
ghost use Rattle.ad_printer.specs.Values.{place_of, value_text};

use crate::pieces::{add, add_decimal, add_number};
use crate::quoting::write_quoted;
use ad_value::{Value, Values};
use pool_text::{AdPlace, OutOfMemory};

/// The place of an ad.
pub fn place_of(v: &Value) -> Option<AdPlace>
    ensures { result ≡ place_of (plain v.now) }
{
    match v {
        Value::Undefined => None,
        Value::Error => None,
        Value::Boolean(_) => None,
        Value::Integer(_) => None,
        Value::Decimal(_) => None,
        Value::Str(_) => None,
        Value::List(_) => None,
        Value::Ad(place) => Some(*place),
    }
}

/// A value as it stands inside a list.
#[cycle(value)]
pub fn write_value(out: &mut Vec<u8>, v: &Value) -> Result<(), OutOfMemory>
    ensures { OnOk result (out.new.items ≡ out.old.items ++ value_text (plain v.now)) }
{
    match v {
        Value::Undefined => add(out, b"undefined"),
        Value::Error => add(out, b"error"),
        Value::Boolean(true) => add(out, b"true"),
        Value::Boolean(false) => add(out, b"false"),
        Value::Integer(n) => add_number(out, *n),
        Value::Decimal(millionths) => add_decimal(out, *millionths),
        Value::Str(text) => write_quoted(out, b'"', text.bytes()),
        Value::List(values) => write_values(out, values),
        Value::Ad(_) => add(out, b"[...]"),
    }
}

#[cycle(value)]
fn write_values(out: &mut Vec<u8>, values: &Values) -> Result<(), OutOfMemory>
    ensures { OnOk result (out.new.items ≡ out.old.items ++ value_text (list_value (plains_of (plains values.now)))) }
{
    if values.len() == 0 {
        add(out, b"{ }")?;
        return Ok(());
    }
    add(out, b"{ ")?;
    write_value(out, values.at(0))?;
    for i in 1..values.len() {
        add(out, b", ")?;
        write_value(out, values.at(i))?;
    }
    add(out, b" }")?;
    Ok(())
}
