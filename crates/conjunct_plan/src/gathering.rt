// The conjuncts of an expression, gathered in one walk.
ghost use Rattle.std.specs.Prelude.{◌≡◌, ◌++◌, map, IfOk, OnOk};
ghost use Rattle.ad_tree.specs.Tree.{pack, tree, trees};
ghost use Rattle.conjunct_plan.specs.Tests.{conjuncts, conjuncts_of_all};

use ad_tree::{Expr, Exprs};
use pool_text::OutOfMemory;
use std::alloc::Global;

/// The conjuncts of an expression, in the order in which they are written.
pub fn conjuncts_of<'a>(alloc: Global, expr: &'a Expr) -> Result<Vec<&'a Expr>, OutOfMemory>
    ensures { IfOk result (λ found. map (λ e. tree e.now) found.items ≡ conjuncts (tree expr.now)) }
{
    let mut found = Vec::new(alloc);
    gather(expr, &mut found)?;
    Ok(found)
}

// Adds the conjuncts of an expression.
#[cycle(gathering)]
fn gather<'a>(expr: &'a Expr, found: &mut Vec<&'a Expr>) -> Result<(), OutOfMemory>
    ensures { OnOk result (map (λ e. tree e.now) found.new.items ≡ map (λ e. tree e.now) found.old.items ++ conjuncts (tree expr.now)) }
{
    if let Expr::And(items) = expr {
        return gather_all(items, found);
    }
    found.push(expr)?;
    Ok(())
}

#[cycle(gathering)]
fn gather_all<'a>(items: &'a Exprs, found: &mut Vec<&'a Expr>) -> Result<(), OutOfMemory>
    ensures { OnOk result (map (λ e. tree e.now) found.new.items
        ≡ map (λ e. tree e.now) found.old.items ++ conjuncts_of_all (pack (trees items.now))) }
{
    for i in 0..items.len() {
        gather(items.at(i), found)?;
    }
    Ok(())
}
