// Expressions that stand alone.
ghost use Rattle.ad_tree.specs.Ad.{ad_frames};
ghost use Rattle.ad_tree.specs.Phrases.{IsPhrase};
ghost use Rattle.ad_tree.specs.Tree.{tree};

use crate::{Ad, Expr};

/// An expression with an ad whose root is empty and whose other frames are exactly the ad literals of the expression,
/// numbered from 1 in the order of their opening brackets.
#[derive(Drop)]
pub struct Phrase {
    pub ad: Ad,
    pub expr: Expr,
    pub ghost is_phrase: { ∥ IsPhrase (ad_frames ad) (tree expr) ∥₁ },
}
