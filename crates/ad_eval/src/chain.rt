// The operators of chains.
ghost use Rattle.std.specs.Prelude.{◌≡◌, max};
ghost use Rattle.ad_value.specs.Plain.{plain};
ghost use Rattle.ad_eval.specs.Chain.{is_decided, joined, start};

use crate::outcome::Outcome;
use ad_value::{Value, and_ends, or_ends};

/// The operator between the expressions of a chain: `&&` or `||`.
#[derive(Clone, Copy)]
pub enum Chain {
    And,
    Or,
}

impl Chain {
    /// The value of a chain of no expressions.
    pub fn start(self) -> Outcome
        ensures value { plain result.value ≡ start self }
        ensures height { result.height ≡ 0 }
    {
        match self {
            Chain::And => Outcome::leaf(Value::Boolean(true)),
            Chain::Or => Outcome::leaf(Value::Boolean(false)),
        }
    }

    /// Whether a value decides the chain, so that the next isn't demanded.
    pub fn is_decided(self, value: &Value) -> bool
        ensures { result ≡ is_decided self (plain value.now) }
    {
        match self {
            Chain::And => and_ends(value),
            Chain::Or => or_ends(value),
        }
    }

    /// The value of a chain with one expression more, with the references of both.
    pub fn join(self, so_far: Outcome, next: Outcome) -> Outcome
        ensures value { plain result.value ≡ joined self (plain so_far.value) (plain next.value) }
        ensures height { result.height ≡ max so_far.height next.height }
    {
        match self {
            Chain::And => so_far.and(next),
            Chain::Or => so_far.or(next),
        }
    }
}
