// List literals, of which no more is gathered once they weigh too much.
ghost use Rattle.std.specs.Prelude.{◌≡◌, ◌∷◌, ◌++◌, [], max, List, IfOk};
ghost use Rattle.ad_value.specs.Demands.{list_value};
ghost use Rattle.ad_value.specs.Plain.{Plain, plain};
ghost use Rattle.ad_eval.specs.Answered.{IsApplied};
ghost use Rattle.ad_eval.specs.Listed.{listed_with};

use crate::outcome::{Outcome, greater};
use crate::stop::Stop;
use ad_value::{Value, Values, bounded};
use pool_text::OutOfMemory;
use std::alloc::Global;

/// The values of a list literal so far, none once they weigh too much, with the least number of references that all of them need.
/// A literal that weighs too much is Error, and of the values behind only the references count.
#[derive(Drop)]
pub struct Listed {
    pub values: Option<Values>,
    pub height: u32,
}

impl Listed {
    /// No values yet.
    pub fn new(alloc: Global) -> Listed
        ensures value { (more : List Plain) → listed_with result.values more ≡ list_value more }
        ensures height { result.height ≡ 0 }
    {
        Listed {
            values: Some(Values::new(alloc)),
            height: 0,
        }
    }

    /// These values with one more behind them.
    pub fn with(self, next: Outcome) -> Result<Listed, OutOfMemory>
        ensures value { IfOk result (λ all. (more : List Plain) → listed_with all.values more ≡ listed_with self.values (plain next.value ∷ more)) }
        ensures height { IfOk result (λ all. all.height ≡ max self.height next.height) }
    {
        let Outcome { value, height } = next;
        let height = greater(self.height, height);
        let values = match self.values {
            Some(values) => with_value(values, value)?,
            None => None,
        };
        Ok(Listed { values, height })
    }

    /// The value of the literal.
    pub fn value(self, alloc: Global) -> Result<Outcome, Stop>
        ensures { IsApplied (listed_with self.values []) self.height result }
    {
        let height = self.height;
        match self.values {
            Some(values) => {
                let value = bounded(Value::list(alloc, values)?);
                Ok(Outcome { value, height })
            }
            None => Ok(Outcome {
                value: Value::Error,
                height,
            }),
        }
    }
}

// Values with one more behind them, and none where they weigh too much.
fn with_value(mut values: Values, value: Value) -> Result<Option<Values>, OutOfMemory>
    ensures { IfOk result (λ all. (more : List Plain) → listed_with all more ≡ list_value (values ++ plain value ∷ more)) }
{
    values.push(value)?;
    if values.is_too_heavy() {
        return Ok(None);
    }
    Ok(Some(values))
}
