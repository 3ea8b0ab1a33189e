// A conjunct of a requirement.
ghost use Rattle.std.specs.Prelude.{◌≡◌, ◌<◌, ◌^◌, length, slice_get, Some};
ghost use Rattle.ad_tree.specs.Ad.{ad_frames};
ghost use Rattle.ad_tree.specs.Tree.{pack, tree, trees};
ghost use Rattle.conjunct_plan.specs.Tests.{conjuncts, conjuncts_at, conjuncts_of_all};

use crate::counting::count;
use crate::planning::requirement;
use ad_tree::{Ad, Expr, Exprs};

/// The conjunct `j` of the requirement of a frame, counted from 0 in the order in which they are written. There are more
/// than `j`, and fewer than 2^32.
pub fn conjunct(ad: &Ad, frame: u32, j: u32) -> &Expr
    requires frame { frame < length (ad_frames ad.now) }
    requires few { length (conjuncts_at (ad_frames ad.now) frame) < 2 ^ 32 }
    requires there { j < length (conjuncts_at (ad_frames ad.now) frame) }
    ensures { slice_get (conjuncts_at (ad_frames ad.now) frame) j ≡ Some (tree result.now) }
{
    pick(requirement(ad, frame).unwrap(), j)
}

// The conjunct `j` of an expression.
#[cycle(picking)]
fn pick(expr: &Expr, j: u32) -> &Expr
    requires few { length (conjuncts (tree expr.now)) < 2 ^ 32 }
    requires there { j < length (conjuncts (tree expr.now)) }
    ensures { slice_get (conjuncts (tree expr.now)) j ≡ Some (tree result.now) }
{
    match expr {
        Expr::And(items) => pick_of_all(items, j),
        _ => expr,
    }
}

#[cycle(picking)]
fn pick_of_all(items: &Exprs, j: u32) -> &Expr
    requires few { length (conjuncts_of_all (pack (trees items.now))) < 2 ^ 32 }
    requires there { j < length (conjuncts_of_all (pack (trees items.now))) }
    ensures { slice_get (conjuncts_of_all (pack (trees items.now))) j ≡ Some (tree result.now) }
{
    // The length comes with the fact that the next place fits.
    let _length = items.len();
    let mut left = j;
    let mut i: usize = 0;
    loop {
        let item = items.at(i);
        let many = count(item);
        if left < many {
            return pick(item, left);
        }
        left -= many;
        i += 1;
    }
}
