// The meter of a search.
ghost use Rattle.std.specs.Prelude.{◌≡◌};

use crate::Steps;
use std::sync::ledger::Ledger;

/// The counters of a search in one: whole evaluations, attributes that they enter, and ads that are looked into.
#[derive(Drop)]
pub struct Meter<'a, F: Ledger, E: Ledger, T: Ledger> {
    pub tops: &'a mut Steps<F>,
    pub entry: &'a mut Steps<E>,
    pub touch: &'a mut Steps<T>,
}

impl<'a, F: Ledger, E: Ledger, T: Ledger> Meter<'a, F, E, T> {
    /// The meter of these counters.
    pub fn new(
        tops: &'a mut Steps<F>,
        entry: &'a mut Steps<E>,
        touch: &'a mut Steps<T>,
    ) -> Meter<'a, F, E, T>
        ensures tops { (result.tops.ghost_name ≡ tops.entry.ghost_name) × (result.tops.now ≡ tops.old) }
        ensures entry { (result.entry.ghost_name ≡ entry.entry.ghost_name) × (result.entry.now ≡ entry.old) }
        ensures touch { (result.touch.ghost_name ≡ touch.entry.ghost_name) × (result.touch.now ≡ touch.old) }
    {
        Meter { tops, entry, touch }
    }
}
