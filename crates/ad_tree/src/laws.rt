// Laws of the definitions, each on a function that does nothing.
ghost use Rattle.std.specs.Prelude.{◌≡◌, ◌↔◌, ◌<◌, ◌≤◌, ◌∷◌, ◌++◌, [], ℕ, suc, true, false, IsTrue, List, length, map, slice_get, Some, Contains};
ghost use Rattle.ad_tree.specs.Tree.{Tree, pack, size, size_all, height_of, highest_of, trees};
ghost use Rattle.ad_tree.specs.Frames.{IsAd, attributes_at, cited_in, empty_frame, names_of, put_attribute, settled_frame};
ghost use Rattle.ad_tree.specs.Names.{has_name, same_name};
ghost use Rattle.ad_tree.specs.Inline.{Inline, inner, Defs, count, put, inlined, frames, number, literals, inside, defs_of, spelled, spelled_tree, settled};
ghost use Rattle.ad_tree.specs.Inline.{ad_of, phrase_of, phrase_tree, is_apart};
ghost use Rattle.ad_tree.specs.Ad.{ad_frames};

use crate::{Ad, Exprs, Scope};

/// Every ad is one: it has a root, parents are lower, the names of a frame are apart, and the frames that stand in a
/// frame's expressions have that frame as their parent. So those are higher frames of the ad.
pub fn ad_is_well_formed(ad: &Ad)
    ensures well_formed { IsAd (ad_frames ad.now) }
    ensures inner_frames { (frame inner_frame : ℕ) → Contains (cited_in (attributes_at (ad_frames ad.now) frame)) inner_frame
        → (frame < inner_frame) × (inner_frame < length (ad_frames ad.now)) }
{}

/// An ad is spelled level by level: what stands in a frame is its attributes, with their ad literals spelled in the same way.
pub fn ad_is_spelled_level_by_level(ad: &Ad)
    ensures { (frame : ℕ) → inside (ad_frames ad.now) (length (ad_frames ad.now)) frame
        ≡ defs_of (inside (ad_frames ad.now) (length (ad_frames ad.now))) (attributes_at (ad_frames ad.now) frame) }
{}

/// Frames are numbered in the order of their opening brackets: frame `k` is the ad literal with the opening bracket `k`.
pub fn frames_stand_in_the_order_of_their_brackets()
    ghost defs: { Defs }
    ensures { (k : ℕ) (literal : Defs) → slice_get (literals (inner defs)) k ≡ Some literal
        → inside (frames 0 0 (inner defs)) (length (frames 0 0 (inner defs))) k ≡ literal }
{}

/// The frames of an expression that stands alone are numbered likewise, behind its empty root: frame `k + 1` is the ad
/// literal with the opening bracket `k`.
pub fn frames_of_a_phrase_stand_in_the_order_of_their_brackets()
    ghost tree: { Inline }
    ensures { (k : ℕ) (literal : Defs) → slice_get (literals tree) k ≡ Some literal
        → inside (empty_frame 0 ∷ frames 0 1 tree) (length (empty_frame 0 ∷ frames 0 1 tree)) (suc k) ≡ literal }
{}

/// An ad has as many frames as its spelled tree has ad literals, itself counted; the ad of an expression has one more,
/// its empty root.
pub fn each_ad_literal_is_one_frame()
    ghost tree: { Inline × Defs }
    ensures ad { length (frames 0 0 (inner tree.1)) ≡ count (inner tree.1) }
    ensures phrase { length (empty_frame 0 ∷ frames 0 1 tree.0) ≡ suc (count tree.0) }
{}

/// A definition of a name that is there stands at its first place, with the new spelling and the new expression, and all
/// others stay. A new name goes last. Definitions of a spelled tree do the same as attributes.
pub fn a_definition_stands_at_its_first_place()
    ghost given: { List ℕ × Tree × List (List ℕ × Tree) }
    ensures known { (front behind : List (List ℕ × Tree)) (old : List ℕ × Tree) → given.2 ≡ front ++ old ∷ behind
        → has_name given.0 (names_of front) ≡ false → same_name given.0 old.0 ≡ true
        → put_attribute given.0 given.1 given.2 ≡ front ++ (given.0, given.1) ∷ behind }
    ensures unknown { has_name given.0 (names_of given.2) ≡ false
        → put_attribute given.0 given.1 given.2 ≡ given.2 ++ (given.0, given.1) ∷ [] }
    ensures spelled { (open_frame : ℕ → Defs) → defs_of open_frame (put_attribute given.0 given.1 given.2)
        ≡ put given.0 (inlined open_frame given.1) (defs_of open_frame given.2) }
{}

/// Two scopes are equal where they are the same one.
pub fn scopes_are_equal(a: Scope, b: Scope) -> bool
    ensures { IsTrue result ↔ (a ≡ b) }
{
    a == b
}

/// What was numbered is spelled back. So two ads that were numbered, as every finished draft is, are equal where they are
/// spelled alike.
pub fn frames_spell_their_tree()
    ghost tree: { Inline × Defs }
    ensures ad { spelled (frames 0 0 (inner tree.1)) ≡ inner tree.1 }
    ensures phrase { spelled_tree (empty_frame 0 ∷ frames 0 1 tree.0) (number 1 tree.0) ≡ tree.0 }
{}

/// A draft in which the definitions of a spelled tree were made one after another spells that tree without its repeated
/// names: it is finished as the tree's ad.
pub fn draft_spells_the_settled_tree()
    ghost tree: { Inline × Defs }
    ensures ad { frames 0 0 (spelled (map settled_frame (frames 0 0 (inner tree.1)))) ≡ ad_of (inner tree.1) }
    ensures phrase { empty_frame 0 ∷ frames 0 1 (spelled_tree (empty_frame 0 ∷ map settled_frame (frames 0 1 tree.0)) (number 1 tree.0))
        ≡ phrase_of tree.0 }
    ensures expr { number 1 (spelled_tree (empty_frame 0 ∷ map settled_frame (frames 0 1 tree.0)) (number 1 tree.0)) ≡ phrase_tree tree.0 }
{}

/// Settling a tree leaves no repeated names, and changes no tree that has none.
pub fn settling_ends_with_names_apart()
    ghost tree: { Inline }
    ensures apart { is_apart (settled tree) ≡ true }
    ensures unchanged { is_apart tree ≡ true → settled tree ≡ tree }
    ensures once { settled (settled tree) ≡ settled tree }
{}

/// The ad of a spelled tree is an ad, and so is that of a phrase.
pub fn spelled_trees_have_ads()
    ghost tree: { Inline × Defs }
    ensures ad { IsAd (ad_of (inner tree.1)) }
    ensures phrase { IsAd (phrase_of tree.0) }
{}

/// An expression of a list is no larger and no higher than the list, so that a recursion into lists ends.
pub fn expressions_are_within_their_list(list: &Exprs)
    ensures size { (i : ℕ) (item : Tree) → slice_get (trees list.now) i ≡ Some item → size item ≤ size_all (pack (trees list.now)) }
    ensures height { (i : ℕ) (item : Tree) → slice_get (trees list.now) i ≡ Some item → height_of item ≤ highest_of (pack (trees list.now)) }
{}
