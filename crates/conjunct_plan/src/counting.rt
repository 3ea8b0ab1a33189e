// How many conjuncts a requirement has.
ghost use Rattle.std.specs.Prelude.{◌≡◌, ◌<◌, ◌^◌, length};
ghost use Rattle.ad_tree.specs.Ad.{ad_frames};
ghost use Rattle.ad_tree.specs.Tree.{pack, tree, trees};
ghost use Rattle.conjunct_plan.specs.Tests.{conjuncts, conjuncts_at, conjuncts_of_all};

use crate::planning::requirement;
use ad_tree::{Ad, Expr, Exprs};

/// The number of conjuncts of the requirement of a frame, 0 where the frame has none. There are fewer than 2^32.
pub fn conjunct_count(ad: &Ad, frame: u32) -> u32
    requires frame { frame < length (ad_frames ad.now) }
    requires few { length (conjuncts_at (ad_frames ad.now) frame) < 2 ^ 32 }
    ensures { result ≡ length (conjuncts_at (ad_frames ad.now) frame) }
{
    match requirement(ad, frame) {
        Some(expr) => count(expr),
        None => 0,
    }
}

/// The number of conjuncts of an expression.
#[cycle(counting)]
pub(crate) fn count(expr: &Expr) -> u32
    requires { length (conjuncts (tree expr.now)) < 2 ^ 32 }
    ensures { result ≡ length (conjuncts (tree expr.now)) }
{
    match expr {
        Expr::And(items) => count_all(items),
        _ => 1,
    }
}

#[cycle(counting)]
fn count_all(items: &Exprs) -> u32
    requires { length (conjuncts_of_all (pack (trees items.now))) < 2 ^ 32 }
    ensures { result ≡ length (conjuncts_of_all (pack (trees items.now))) }
{
    let mut total: u32 = 0;
    for i in 0..items.len() {
        total += count(items.at(i));
    }
    total
}
