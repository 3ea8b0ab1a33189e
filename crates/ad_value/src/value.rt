// A value, and the list of values that lies inside one.
ghost use Rattle.std.specs.Prelude.{◌≡◌, ◌++◌, ◌∷◌, ◌<◌, ◌-◌, ◌^◌, [], length, min, nat_lt, slice_get, IfOk, Some, OnOk, OnErr};
ghost use Rattle.ad_value.specs.Plain.{list, plain, plains, plains_of};
ghost use Rattle.ad_value.specs.Operators.{weight_of, weights_of};
ghost use Rattle.ad_value.specs.Limits.{weight_limit};

use crate::weighing::{WEIGHT_LIMIT, weight};
use pool_text::{AdPlace, OutOfMemory, Text};
use std::alloc::Global;
use std::marker::Model;
use std::rc::Rc;

/// A value of the ClassAd language, as the ClassAd Language Reference Manual 2.4 has it, without reals and times.
/// An `Integer` has 64 bits, a `Decimal` is a number of millionths in 64 bits, a `Str` is a list of bytes, and an `Ad` is the
/// place of a frame, not a copy of it.
#[cycle(value)]
#[derive(Drop)]
pub enum Value {
    Undefined,
    Error,
    Boolean(bool),
    Integer(i64),
    Decimal(i64),
    Str(Text),
    List(Rc<Values>),
    Ad(AdPlace),
}

impl Value {
    /// The list of these values. It is shared from now on: a copy takes no values, but holds the same.
    pub fn list(alloc: Global, values: Values) -> Result<Value, OutOfMemory>
        ensures { IfOk result (λ v. plain v ≡ list (plains_of (plains values))) }
    {
        Ok(Value::List(Rc::new(alloc, values)?))
    }
}

/// A list of values, with what they weigh together.
#[cycle(value)]
#[derive(Drop)]
pub struct Values {
    items: Vec<Value>,
    // 2^64 - 1 where the values weigh more.
    weight: u64,
}

impl Model for Values {
    ghost use Rattle.std.specs.Prelude.{List, map, min, ◌≡◌, ◌-◌, ◌^◌};
    ghost use Rattle.std.specs.Coded.{coded_list};
    ghost use Rattle.ad_value.specs.Shapes.{Plain};
    ghost use Rattle.ad_value.specs.Codes.{plain_code};

    ghost Value = { List Plain };

    ghost coded = { coded_list plain_code };

    ghost use Rattle.ad_value.specs.Plain.{plain, plains_of};
    ghost use Rattle.ad_value.specs.Operators.{weights_of};

    ghost view = { λ a. map plain a.items.items };

    ghost invariant = { λ a. a.weight ≡ min (weights_of (plains_of (map plain a.items.items))) (2 ^ 64 - 1) };

    ghost size = { λ ps. weights_of (plains_of ps) };

    ghost use Rattle.std.proofs.Common.{arith};
    ghost use Rattle.ad_value.specs.Falls.{most_le-weights};

    ghost size_decreases = { λ a h. omega (arith, most_le-weights a.items.items) };
}

impl Values {
    /// The empty list, which takes no memory yet.
    pub fn new(alloc: Global) -> Values
        ensures { plains result ≡ [] }
    {
        Values {
            items: Vec::new(alloc),
            weight: 0,
        }
    }

    /// Adds a value at the end.
    #[inline(always)]
    pub fn push(&mut self, item: Value) -> Result<(), OutOfMemory>
        ensures ok { OnOk result (plains self.new ≡ plains self.old ++ plain item ∷ []) }
        ensures err { OnErr result (plains self.new ≡ plains self.old) }
    {
        let weight = weight(&item);
        self.items.push(item)?;
        self.weight = self.weight.saturating_add(weight);
        Ok(())
    }

    /// How many values there are.
    pub fn len(&self) -> usize
        ensures { result ≡ length (plains self.now) }
    {
        self.items.len()
    }

    /// The value at place `i`, counted from 0.
    pub fn at(&self, i: usize) -> &Value
        requires { i < length (plains self.now) }
        ensures { slice_get (plains self.now) i ≡ Some (plain result.now) }
    {
        &self.items[i]
    }

    /// The weights of the values together, 2^64 - 1 where they are more.
    pub fn weight(&self) -> u64
        ensures { result ≡ min (weights_of (plains_of (plains self.now))) (2 ^ 64 - 1) }
    {
        self.weight
    }

    /// Whether a list of these values weighs more than 65,536, so that a list literal of them is Error.
    pub fn is_too_heavy(&self) -> bool
        ensures { result ≡ nat_lt weight_limit (weight_of (list (plains_of (plains self.now)))) }
    {
        self.weight.saturating_add(1) > WEIGHT_LIMIT
    }
}
