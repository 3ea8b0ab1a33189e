// A second value that is equal to a first.
ghost use Rattle.std.specs.Prelude.{◌≡◌, IfOk};
ghost use Rattle.ad_value.specs.Plain.{list, plain, plains, plains_of, text};

use crate::{Value, Values};
use pool_text::{OutOfMemory, Text};
use std::alloc::Global;
use std::rc::Rc;

/// A second value that is equal to `v`, with a text of its own. A list is shared.
pub fn copy(alloc: Global, v: &Value) -> Result<Value, OutOfMemory>
    ensures { IfOk result (λ c. plain c ≡ plain v.now) }
{
    match v {
        Value::Undefined => Ok(Value::Undefined),
        Value::Error => Ok(Value::Error),
        Value::Boolean(b) => Ok(Value::Boolean(*b)),
        Value::Integer(n) => Ok(Value::Integer(*n)),
        Value::Decimal(millionths) => Ok(Value::Decimal(*millionths)),
        Value::Str(text) => copy_text(alloc, text),
        Value::List(values) => share(values),
        Value::Ad(place) => Ok(Value::Ad(*place)),
    }
}

/// The value of a text that is equal to `held`.
#[inline(never)]
pub(crate) fn copy_text(alloc: Global, held: &Text) -> Result<Value, OutOfMemory>
    ensures { IfOk result (λ c. plain c ≡ text held.now) }
{
    Ok(Value::Str(Text::from_bytes(alloc, held.bytes())?))
}

// The same list for one more holder. It stands apart, since most copies are of no list.
#[inline(never)]
fn share(values: &Rc<Values>) -> Result<Value, OutOfMemory>
    ensures { IfOk result (λ c. plain c ≡ list (plains_of (plains values.now.value))) }
{
    Ok(Value::List(values.clone()?))
}
