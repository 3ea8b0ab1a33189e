// What a step of an evaluation gives.
ghost use Rattle.std.specs.Prelude.{◌≡◌, ◌<◌, ◌+◌, ◌^◌, ◌++◌, ◌∷◌, [], max, IfOk};
ghost use Rattle.ad_value.specs.Logic.{and_value, or_value};
ghost use Rattle.ad_value.specs.Operators.{binary_value, unary_value};
ghost use Rattle.ad_value.specs.Plain.{plain, plains};
ghost use Rattle.ad_eval.specs.Answered.{IsAtLeast};

use crate::stop::Stop;
use ad_value::{Value, Values, and_step, binary, or_step, unary};
use pool_text::{BinOp, OutOfMemory, UnOp};

/// A value, with the least number of references that it needs.
#[derive(Drop)]
pub struct Outcome {
    pub value: Value,
    pub height: u32,
}

/// Several values, with the least number of references that all of them need.
#[derive(Drop)]
pub struct Several {
    pub values: Values,
    pub height: u32,
}

impl Outcome {
    /// A value that needs no references.
    pub fn leaf(value: Value) -> Outcome
        ensures value { plain result.value ≡ plain value }
        ensures height { result.height ≡ 0 }
    {
        Outcome { value, height: 0 }
    }

    /// The value of an operator before this operand.
    pub fn unary(self, op: UnOp) -> Outcome
        ensures value { plain result.value ≡ unary_value op (plain self.value) }
        ensures height { result.height ≡ self.height }
    {
        let value = unary(op, &self.value);
        let height = self.height;
        drop(self);
        Outcome { value, height }
    }

    /// The value of an operator between this operand and the next, with the references of both.
    pub fn binary(self, op: BinOp, next: Outcome) -> Outcome
        ensures value { plain result.value ≡ binary_value op (plain self.value) (plain next.value) }
        ensures height { result.height ≡ max self.height next.height }
    {
        let value = binary(op, &self.value, &next.value);
        let height = greater(self.height, next.height);
        drop(self);
        drop(next);
        Outcome { value, height }
    }
}

impl Outcome {
    /// The value of `first && second` where this is the first, with the references of both.
    pub fn and(self, next: Outcome) -> Outcome
        ensures value { plain result.value ≡ and_value (plain self.value) (plain next.value) }
        ensures height { result.height ≡ max self.height next.height }
    {
        let value = and_step(&self.value, &next.value);
        let height = greater(self.height, next.height);
        drop(self);
        drop(next);
        Outcome { value, height }
    }

    /// The value of `first || second`, likewise.
    pub fn or(self, next: Outcome) -> Outcome
        ensures value { plain result.value ≡ or_value (plain self.value) (plain next.value) }
        ensures height { result.height ≡ max self.height next.height }
    {
        let value = or_step(&self.value, &next.value);
        let height = greater(self.height, next.height);
        drop(self);
        drop(next);
        Outcome { value, height }
    }
}

impl Outcome {
    /// The same value with one reference more.
    pub fn one_more(self) -> Outcome
        requires { self.height + 1 < 2 ^ 32 }
        ensures value { plain result.value ≡ plain self.value }
        ensures height { result.height ≡ self.height + 1 }
    {
        let Outcome { value, height } = self;
        Outcome {
            value,
            height: height + 1,
        }
    }
}

impl Several {
    /// These values with one more behind them.
    pub fn with(self, next: Outcome) -> Result<Several, OutOfMemory>
        ensures values { IfOk result (λ all. plains all.values ≡ plains self.values ++ plain next.value ∷ []) }
        ensures height { IfOk result (λ all. all.height ≡ max self.height next.height) }
    {
        let Several { mut values, height } = self;
        let Outcome {
            value,
            height: needed,
        } = next;
        values.push(value)?;
        Ok(Several {
            values,
            height: greater(height, needed),
        })
    }
}

/// The same answer where a value needs at least so many references.
pub fn at_least(answer: Result<Outcome, Stop>, height: u32) -> Result<Outcome, Stop>
    ensures { IsAtLeast height answer result }
{
    match answer {
        Ok(Outcome { value, height: own }) => Ok(Outcome {
            value,
            height: greater(height, own),
        }),
        Err(stop) => Err(stop),
    }
}

/// The greater of two numbers.
pub fn greater(a: u32, b: u32) -> u32
    ensures { result ≡ max a b }
{
    if a < b { b } else { a }
}
