// Laws of the definitions, each on a function that does nothing.
ghost use Rattle.std.specs.Prelude.{◌≡◌, ◌↔◌, IsTrue, List, true};
ghost use Rattle.ad_value.specs.Plain.{Plain, Plains, boolean, elements, plain, plains_of, text};
ghost use Rattle.pool_text.specs.Folding.{folded};
ghost use Rattle.ad_value.specs.Logic.{and_is_decided, and_value, mirrored, or_is_decided, or_value};
ghost use Rattle.ad_value.specs.Operators.{binary_value, is_same};

use crate::Value;
use pool_text::BinOp;

/// `||` is `&&` with true and false exchanged on both sides and in the result, and it demands its right side likewise.
pub fn or_mirrors_and(left: &Value, right: &Value)
    ensures value { or_value (plain left.now) (plain right.now)
        ≡ mirrored (and_value (mirrored (plain left.now)) (mirrored (plain right.now))) }
    ensures decided { or_is_decided (plain left.now) ≡ and_is_decided (mirrored (plain left.now)) }
{}

/// The right side of `&&` and of `||` isn't demanded exactly where it makes no difference to the value.
pub fn undemanded_side_makes_no_difference(left: &Value)
    ensures and { IsTrue (and_is_decided (plain left.now))
        ↔ ((one other : Plain) → and_value (plain left.now) one ≡ and_value (plain left.now) other) }
    ensures or { IsTrue (or_is_decided (plain left.now))
        ↔ ((one other : Plain) → or_value (plain left.now) one ≡ or_value (plain left.now) other) }
{}

/// `is` tells exactly whether two values are equal, and so it is an equivalence.
pub fn is_is_equality(a: &Value, b: &Value, c: &Value)
    ensures equality { IsTrue (is_same (plain a.now) (plain b.now)) ↔ (plain a.now ≡ plain b.now) }
    ensures reflexive { IsTrue (is_same (plain a.now) (plain a.now)) }
    ensures symmetric { IsTrue (is_same (plain a.now) (plain b.now))
        → IsTrue (is_same (plain b.now) (plain a.now)) }
    ensures transitive { IsTrue (is_same (plain a.now) (plain b.now))
        → IsTrue (is_same (plain b.now) (plain c.now))
        → IsTrue (is_same (plain a.now) (plain c.now)) }
{}

/// `==` of two texts is equality after `A` to `Z` are made small.
pub fn equal_texts_fold_alike(a: &[u8], b: &[u8])
    ensures { (binary_value BinOp.Equal (text a.now) (text b.now) ≡ boolean true)
        ↔ (folded a.now ≡ folded b.now) }
{}

/// A list value and its elements say the same: each is had from the other.
pub fn elements_are_those_listed()
    ensures listed { (items : List Plain) → elements (plains_of items) ≡ items }
    ensures again { (items : Plains) → plains_of (elements items) ≡ items }
{}
