// Where an attribute stands in the order of the index.
ghost use Rattle.std.proofs.Common.{rules};
ghost use Rattle.std.specs.Cmp.{eq_by_cmp_equiv, partial_equiv_from_equiv, partial_order_from_total};
ghost use Rattle.std.specs.Cmp.Rules.{comparing};
ghost use Rattle.std.specs.Ordering.{as_partial_cmp, eq_by_cmp};
ghost use Rattle.literal_index.specs.Order.{place_order, place_order_total};

use std::cmp::Ordering;

/// What the expression of an attribute is: no literal, or a literal of so many kinds. Booleans are numbers too.
#[derive(Clone, Copy, PartialEq, Eq, PartialOrd, Ord)]
pub enum Kind {
    Open,
    Undefined,
    Error,
    Number,
    Str,
}

/// The place of an attribute of an ad: by the digest of its name, then by what its expression is, then by the number or
/// the digest of its literal. A number counts in millionths, so that 2 and 2.0 stand side by side, and the largest without
/// their last bits, so that it takes eight bytes. The ad's slot and the attribute's place in the ad come last and keep equal
/// ones apart.
#[derive(Clone, Copy)]
pub struct Place {
    pub name: u64,
    pub value: i64,
    pub slot: usize,
    pub attr: u32,
    pub kind: Kind,
}

impl PartialEq for Place {
    ghost eq = { eq_by_cmp place_order };

    ghost laws = { partial_equiv_from_equiv (eq_by_cmp_equiv place_order_total) };

    fn eq(&self, other: &Place) -> bool {
        self.cmp(other).is_eq()
    }
}

impl Eq for Place {
    ghost laws = { eq_by_cmp_equiv place_order_total };
}

impl PartialOrd for Place {
    ghost partial_cmp = { as_partial_cmp place_order };

    ghost laws = { partial_order_from_total place_order_total };

    fn partial_cmp(&self, other: &Place) -> Option<Ordering> {
        Some(self.cmp(other))
    }
}

impl Ord for Place {
    ghost cmp = { place_order };

    ghost total = { place_order_total };

    ghost matches_partial_cmp = { Prim.search (comparing, rules) };

    ghost matches_eq = { Prim.search (comparing, rules) };

    fn cmp(&self, other: &Place) -> Ordering {
        if self.name > other.name {
            return Ordering::Greater;
        }
        if self.name < other.name {
            return Ordering::Less;
        }
        if self.kind != other.kind {
            return self.kind.cmp(&other.kind);
        }
        if self.value > other.value {
            return Ordering::Greater;
        }
        if self.value < other.value {
            return Ordering::Less;
        }
        if self.slot != other.slot {
            return self.slot.cmp(&other.slot);
        }
        self.attr.cmp(&other.attr)
    }
}
