// The branch that a condition chooses.
ghost use Rattle.ad_value.specs.Plain.{plain};
ghost use Rattle.ad_tree.specs.Tree.{tree};
ghost use Rattle.ad_eval.specs.Branch.{IsBranch};

use ad_tree::Expr;
use ad_value::Value;

/// What a conditional comes to: one of its branches, or a value at once.
pub enum Branch<'e> {
    Taken(&'e Expr),
    Value(Value),
}

/// True takes the first and false the second; Undefined gives Undefined, and all else Error.
pub fn branch_of<'e>(condition: &Value, first: &'e Expr, second: &'e Expr) -> Branch<'e>
    ensures { IsBranch (plain condition.now) (tree first.entry.now) (tree second.entry.now) result }
{
    match condition {
        Value::Boolean(holds) => {
            if *holds {
                Branch::Taken(first)
            } else {
                Branch::Taken(second)
            }
        }
        Value::Undefined => Branch::Value(Value::Undefined),
        _ => Branch::Value(Value::Error),
    }
}
