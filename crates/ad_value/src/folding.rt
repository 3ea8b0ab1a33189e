// Texts compared after `A` to `Z` are made small, where only equality is asked.
ghost use Rattle.std.specs.Prelude.{◌≡◌, bytes_eq, not};
ghost use Rattle.std.specs.Ordering.{is_eq, is_ne};
ghost use Rattle.pool_text.specs.Folding.{folded, text_order};

use pool_text::same_folded;

/// Whether two texts are equal in their order.
#[tactic(auto, using(crate::proofs::OperatorLemmas::equal_in_order, crate::proofs::OperatorLemmas::apart_in_order))]
pub(crate) fn equal_texts(a: &[u8], b: &[u8]) -> bool
    ensures equal { result ≡ is_eq (text_order a.now b.now) }
    ensures apart { not result ≡ is_ne (text_order a.now b.now) }
{
    equal_folded(a, b)
}

#[inline(always)]
fn equal_folded(a: &[u8], b: &[u8]) -> bool
    ensures { result ≡ bytes_eq (folded a.now) (folded b.now) }
{
    same_folded(a, b)
}
