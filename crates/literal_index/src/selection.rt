// Slots chosen by a test.
ghost use Rattle.std.specs.Prelude.{◌≡◌, ◌<◌, ◌^◌, ◌++◌, count_by, filter, min, not, nat_eq, IfOk, OnOk};
ghost use Rattle.std.specs.BTreeMap.{IsOrdered};
ghost use Rattle.std.specs.BTreeSet.{IsOrdered as IsSetOrdered};
ghost use Rattle.std.specs.Ordering.{nat_cmp};
ghost use Rattle.std.specs.List.{list_any};
ghost use Rattle.std.specs.List.Sorted.{IsNonDecreasing, IsPermutation};
ghost use Rattle.literal_index.specs.Entries.{chosen_slots, is_chosen, is_chosen_by_both, slots_of_both};
ghost use Rattle.literal_index.specs.Order.{place_order};
ghost use Rattle.literal_index.specs.Selections.{spanned, spanned_by_both};

use crate::entry::{Choice, Entry, asked};
use crate::place::Place;
use crate::span::Span;
use conjunct_plan::Test;
use pool_text::{OutOfMemory, Slots, name_digest};
use std::alloc::Global;
use std::collections::{BTreeMap, BTreeSet};
use std::ops::Bound;

/// Adds the slots of the attributes in the span that the test asks for and that are of the choice.
pub fn push_chosen(
    entries: &BTreeMap<Place, Entry>,
    test: &Test,
    choice: Choice,
    span: Span,
    slots: &mut Vec<usize>,
) -> Result<(), OutOfMemory>
    ensures ordered { IsOrdered place_order entries.now }
    ensures slots { OnOk result (slots.new.items
        ≡ slots.old.items ++ chosen_slots test.now choice (spanned test.now span entries.now)) }
{
    let name = name_digest(asked(test).bytes());
    let bounds = (
        Bound::Included(span.first(name)),
        Bound::Included(span.last(name)),
    );
    for (place, entry) in entries.range(bounds) {
        if entry.is_chosen(test, choice) {
            slots.push(place.slot)?;
        }
    }
    Ok(())
}

/// How many slots that would add. No memory is taken.
pub fn count_chosen(
    entries: &BTreeMap<Place, Entry>,
    test: &Test,
    choice: Choice,
    span: Span,
) -> usize
    ensures ordered { IsOrdered place_order entries.now }
    ensures small { result < 2 ^ 63 }
    ensures count { result ≡ count_by (λ e. is_chosen test.now choice e.1) (spanned test.now span entries.now) }
{
    let name = name_digest(asked(test).bytes());
    let bounds = (
        Bound::Included(span.first(name)),
        Bound::Included(span.last(name)),
    );
    entries
        .range(bounds)
        .filter(|(_, entry)| entry.is_chosen(test, choice))
        .count()
}

/// The same number, or the most that is asked for where it is more: no more entries are counted then.
pub fn count_chosen_within(
    entries: &BTreeMap<Place, Entry>,
    test: &Test,
    choice: Choice,
    span: Span,
    most: usize,
) -> usize
    ensures ordered { IsOrdered place_order entries.now }
    ensures count { result ≡ min (count_by (λ e. is_chosen test.now choice e.1) (spanned test.now span entries.now)) most }
{
    let name = name_digest(asked(test).bytes());
    let bounds = (
        Bound::Included(span.first(name)),
        Bound::Included(span.last(name)),
    );
    entries
        .range(bounds)
        .filter(|(_, entry)| entry.is_chosen(test, choice))
        .take(most)
        .count()
}

/// Adds the slots of the attributes that both tests ask for with a literal that makes both true.
pub fn push_chosen_by_both(
    entries: &BTreeMap<Place, Entry>,
    first: &Test,
    second: &Test,
    slots: &mut Vec<usize>,
) -> Result<(), OutOfMemory>
    ensures ordered { IsOrdered place_order entries.now }
    ensures slots { OnOk result (slots.new.items
        ≡ slots.old.items ++ slots_of_both first.now second.now (spanned_by_both first.now second.now entries.now)) }
{
    let name = name_digest(asked(first).bytes());
    let (one, other) = (Span::passing(first), Span::passing(second));
    let bounds = (
        Bound::Included(one.first_in_both(other, name)),
        Bound::Included(one.last_in_both(other, name)),
    );
    for (place, entry) in entries.range(bounds) {
        if entry.is_chosen_by_both(first, second) {
            slots.push(place.slot)?;
        }
    }
    Ok(())
}

/// How many slots that would add, or the most that is asked for where it is more. No memory is taken.
pub fn count_chosen_by_both_within(
    entries: &BTreeMap<Place, Entry>,
    first: &Test,
    second: &Test,
    most: usize,
) -> usize
    ensures ordered { IsOrdered place_order entries.now }
    ensures count { result ≡ min (count_by (λ e. is_chosen_by_both first.now second.now e.1) (spanned_by_both first.now second.now entries.now)) most }
{
    let name = name_digest(asked(first).bytes());
    let (one, other) = (Span::passing(first), Span::passing(second));
    let bounds = (
        Bound::Included(one.first_in_both(other, name)),
        Bound::Included(one.last_in_both(other, name)),
    );
    entries
        .range(bounds)
        .filter(|(_, entry)| entry.is_chosen_by_both(first, second))
        .take(most)
        .count()
}

/// The slots in rising order.
pub fn in_order(mut slots: Vec<usize>) -> Result<Vec<usize>, OutOfMemory>
    ensures slots { IfOk result (λ ordered. IsPermutation slots.items ordered.items) }
    ensures rising { IfOk result (λ ordered. IsNonDecreasing ordered.items) }
{
    if slots.is_sorted() {
        return Ok(slots);
    }
    slots.sort()?;
    Ok(slots)
}

/// The same slots as a list of their own.
pub fn listed(alloc: Global, slots: &[usize]) -> Result<Slots, OutOfMemory>
    ensures { IfOk result (λ list. list ≡ slots.now) }
{
    let mut list = Slots::new(alloc);
    for slot in slots {
        list.push(*slot)?;
    }
    Ok(list)
}

/// All slots but some, which are given in rising order.
pub fn others(alloc: Global, slots: &BTreeSet<usize>, but: &[usize]) -> Result<Slots, OutOfMemory>
    requires { IsNonDecreasing but.now }
    ensures ordered { IsSetOrdered nat_cmp slots.now }
    ensures slots { IfOk result (λ list. list ≡ filter (λ slot. not (list_any (nat_eq slot) but.now)) slots.now.keys) }
{
    let mut list = Slots::new(alloc);
    for slot in slots {
        if !has(but, *slot) {
            list.push(*slot)?;
        }
    }
    Ok(list)
}

// Whether a slot is among some, which are in rising order.
fn has(slots: &[usize], slot: usize) -> bool
    requires { IsNonDecreasing slots.now }
    ensures { result ≡ list_any (nat_eq slot) slots.now }
{
    slots.binary_search(&slot).is_ok()
}
