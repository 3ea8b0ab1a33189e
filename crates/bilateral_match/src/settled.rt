// Expressions that have one value beside an ad, whatever request they stand in.
ghost use Rattle.std.specs.Prelude.{◌≡◌, is_some};
ghost use Rattle.ad_tree.specs.Ad.{ad_frames};
ghost use Rattle.ad_tree.specs.Enclosing.{expr_named};
ghost use Rattle.ad_tree.specs.Tree.{pack, tree, trees};
ghost use Rattle.conjunct_plan.specs.Decided.{counted};
ghost use Rattle.bilateral_match.specs.Known.{are_settled, is_rank_settled, is_settled, rank_expr};

use ad_tree::{Ad, Expr, Exprs, Scope};

/// Whether a request has a rank whose expression the ad settles.
pub(crate) fn is_rank_settled(request: &Ad, ad: &Ad) -> bool
    ensures { result ≡ is_rank_settled (ad_frames ad.now) (rank_expr (ad_frames request.now)) }
{
    match request.rank(0) {
        Some(attr) => is_settled(request.expr(0, attr), ad),
        None => false,
    }
}

// Whether the ad settles an expression: whatever this asks for is a literal of the ad's root, or absent there.
#[cycle(settling)]
fn is_settled(expr: &Expr, ad: &Ad) -> bool
    ensures { result ≡ is_settled (ad_frames ad.now) (tree expr.now) }
{
    match expr {
        Expr::Literal(_) => true,
        Expr::Name(Scope::Target, name) => is_literal_or_absent(ad, name.bytes()),
        Expr::Unary(_, a) => is_settled(a, ad),
        Expr::Binary(_, a, b) => is_settled(a, ad) && is_settled(b, ad),
        Expr::Cond(a, b, c) => is_settled(a, ad) && is_settled(b, ad) && is_settled(c, ad),
        Expr::And(items) => are_settled(items, ad),
        Expr::Or(items) => are_settled(items, ad),
        _ => false,
    }
}

// Whether the ad settles all of these.
#[cycle(settling)]
fn are_settled(items: &Exprs, ad: &Ad) -> bool
    ensures { result ≡ are_settled (ad_frames ad.now) (pack (trees items.now)) }
{
    for i in 0..items.len() {
        if !is_settled(items.at(i), ad) {
            return false;
        }
    }
    true
}

// Whether the root of the ad has a literal under a name, or nothing.
fn is_literal_or_absent(ad: &Ad, name: &[u8]) -> bool
    ensures { result ≡ is_some (counted (expr_named (ad_frames ad.now) 0 name.now)) }
{
    match ad.position(0, name) {
        Some(attr) => matches!(ad.expr(0, attr), Expr::Literal(_)),
        None => true,
    }
}
