// Requests that differ only in attributes that have no mark.
ghost use Rattle.std.specs.Prelude.{◌≡◌, ◌↔◌, ℕ, IsTrue, Some, length, slice_get, true};
ghost use Rattle.ad_tree.specs.Ad.{ad_frames};
ghost use Rattle.ad_tree.specs.Frames.{attributes_at, expr_at, names_in};
ghost use Rattle.significant_attrs.specs.Twins.{AreTwins};

use ad_tree::{Ad, same_attributes, same_expr};

/// Whether two ads are the same, but for the expressions of those attributes of the root that have no mark. No memory is taken.
/// Where each attribute is marked that the matching with some ads can come to, none of these tells the two apart
/// (`twins_are_told_apart_by_no_ad`).
pub fn are_twins(one: &Ad, other: &Ad, marks: &[bool]) -> bool
    ensures { IsTrue result ↔ AreTwins marks.now (ad_frames one.now) (ad_frames other.now) }
{
    if one.frames() != other.frames() || !have_same_names(one, other) {
        return false;
    }
    if !have_same_exprs(one, other, marks) {
        return false;
    }
    for frame in 1..one.frames() {
        if one.parent(frame) != other.parent(frame) || !same_attributes(one, other, frame) {
            return false;
        }
    }
    true
}

// Whether the roots have the same names in the same places.
fn have_same_names(one: &Ad, other: &Ad) -> bool
    ensures { IsTrue result ↔ (names_in (ad_frames one.now) 0 ≡ names_in (ad_frames other.now) 0) }
{
    if one.count(0) != other.count(0) {
        return false;
    }
    for k in 0..one.count(0) {
        if one.name(0, k) != other.name(0, k) {
            return false;
        }
    }
    true
}

// Whether the roots have the same expressions where there is a mark.
fn have_same_exprs(one: &Ad, other: &Ad, marks: &[bool]) -> bool
    requires { length (attributes_at (ad_frames one.now) 0) ≡ length (attributes_at (ad_frames other.now) 0) }
    ensures { IsTrue result ↔ ((k : ℕ) → slice_get marks.now k ≡ Some true → expr_at (ad_frames one.now) 0 k ≡ expr_at (ad_frames other.now) 0 k) }
{
    for k in 0..one.count(0) {
        if is_marked(marks, k) && !same_expr(one.expr(0, k), other.expr(0, k)) {
            return false;
        }
    }
    true
}

/// Whether the attribute at a place of the root is marked.
pub(crate) fn is_marked(marks: &[bool], place: u32) -> bool
    ensures { IsTrue result ↔ (slice_get marks.now place ≡ Some true) }
{
    match marks.get(place as usize) {
        Some(mark) => *mark,
        None => false,
    }
}
