// The value of a literal.
ghost use Rattle.std.specs.Prelude.{◌≡◌, IfOk};
ghost use Rattle.ad_value.specs.Plain.{plain, plain_of_lit};

use crate::Value;
use crate::copying::copy_text;
use pool_text::{Lit, OutOfMemory};
use std::alloc::Global;

/// The value of a literal.
pub fn from_lit(alloc: Global, lit: &Lit) -> Result<Value, OutOfMemory>
    ensures { IfOk result (λ v. plain v ≡ plain_of_lit lit.now) }
{
    Ok(match lit {
        Lit::Undefined => Value::Undefined,
        Lit::Error => Value::Error,
        Lit::Boolean(b) => Value::Boolean(*b),
        Lit::Integer(n) => Value::Integer(*n),
        Lit::Decimal(millionths) => Value::Decimal(*millionths),
        Lit::Str(text) => copy_text(alloc, text)?,
    })
}
