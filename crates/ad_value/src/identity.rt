// `is`, which tells values apart that `==` does not.
ghost use Rattle.std.specs.Prelude.{◌≡◌};
ghost use Rattle.ad_value.specs.Plain.{plain, plains, plains_of};
ghost use Rattle.ad_value.specs.Operators.{are_same, is_same};

use crate::{Value, Values};

/// Whether `a is b`, also spelled `=?=`: both of one kind and equal, so an Integer and a Boolean or a Decimal never are. As in the
/// ClassAd Language Reference Manual 2.4 the case of texts counts. Lists are compared element by element, ads by place.
#[cycle(same)]
pub fn same(a: &Value, b: &Value) -> bool
    ensures { result ≡ is_same (plain a.now) (plain b.now) }
{
    match (a, b) {
        (Value::Undefined, Value::Undefined) | (Value::Error, Value::Error) => true,
        (Value::Boolean(x), Value::Boolean(y)) => x == y,
        (Value::Integer(x), Value::Integer(y)) => x == y,
        (Value::Decimal(x), Value::Decimal(y)) => x == y,
        (Value::Str(x), Value::Str(y)) => x.bytes() == y.bytes(),
        (Value::List(x), Value::List(y)) => same_items(x, y),
        (Value::Ad(x), Value::Ad(y)) => x.ad == y.ad && x.frame == y.frame,
        _ => false,
    }
}

// Whether the lists are as long, and each element of one is the other's.
#[cycle(same)]
fn same_items(a: &Values, b: &Values) -> bool
    ensures { result ≡ are_same (plains_of (plains a.now)) (plains_of (plains b.now)) }
{
    if a.len() != b.len() {
        return false;
    }
    for i in 0..a.len() {
        if !same(a.at(i), b.at(i)) {
            return false;
        }
    }
    true
}
