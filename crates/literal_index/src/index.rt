// The index of the ads of a pool.
ghost use Rattle.std.specs.Prelude.{◌≡◌, ◌∷◌, ◌++◌, ◌<◌, [], ℕ, length, min, IfOk, IsTrue, OnOk, OnErr, None, List, Option};
ghost use Rattle.std.specs.List.Sorted.{IsPermutation, IsStrictlyIncreasing};
ghost use Rattle.ad_tree.specs.Ad.{ad_frames};
ghost use Rattle.ad_tree.specs.Frames.{Frame};
ghost use Rattle.literal_index.specs.Entries.{is_pair};
ghost use Rattle.literal_index.specs.Shown.{ArePlaced, with_ad};
ghost use Rattle.literal_index.specs.Rows.{Row, ad_under, passing_both, passing_slots, row_of};

use crate::attributes::{put_attributes, take_attributes};
use crate::entry::{Choice, Entry, holds};
use crate::name::NameCache;
use crate::place::{Kind, Place};
use crate::selection::{
    count_chosen, count_chosen_by_both_within, count_chosen_within, in_order, listed, others,
    push_chosen, push_chosen_by_both,
};
use crate::span::Span;
use ad_tree::Ad;
use conjunct_plan::Test;
use pool_text::{Lit, OutOfMemory, Slots};
use std::alloc::Global;
use std::collections::{BTreeMap, BTreeSet};

/// The attributes that are no literals, which decide nothing.
const OPEN: Span = Span::At(Kind::Open, 0);

/// An index of ads, each under a slot of its own, by the literals of the attributes of their roots.
///
/// The attributes of one name stand together in one order, by kind and number of their literals, so those that can make
/// a test true are found by their place. An ad that is added waits until it is settled, since a pool may take in many ads
/// before the first search; and what isn't settled no search finds.
#[derive(Drop)]
pub struct Index {
    alloc: Global,
    entries: BTreeMap<Place, Entry>,
    slots: BTreeSet<usize>,
    names: NameCache,
    waiting: BTreeMap<usize, Ad>,
}

impl Index {
    ghost use Rattle.literal_index.specs.Shown.{IsIndex, IsKept};

    /// An index of no ads, which takes no memory yet.
    pub fn new(alloc: Global) -> Index
        ensures kept { IsKept result [] }
        ensures settled { IsIndex result [] }
    {
        Index {
            alloc,
            entries: BTreeMap::new(alloc),
            slots: BTreeSet::new(alloc),
            names: NameCache::new(alloc),
            waiting: BTreeMap::new(alloc),
        }
    }

    /// Adds an ad under a slot under which there is none; it waits until it is settled. Want of memory leaves the index as it
    /// was.
    pub fn add(&mut self, slot: usize, ad: &Ad) -> Result<(), OutOfMemory>
        ensures ok { OnOk result ((before after : List Row) → IsKept self.old (before ++ after)
            → ad_under slot (before ++ after) ≡ None
            → IsKept self.new (before ++ row_of slot (ad_frames ad.now) ∷ after)) }
        ensures err { OnErr result ((rows : List Row) → IsKept self.old rows
            → ad_under slot rows ≡ None → IsKept self.new rows) }
    {
        // That attributes can be numbered comes with their count.
        let _few = ad.count(0);
        self.waiting.insert(slot, ad.share()?)?;
        Ok(())
    }

    /// Takes out the ad under a slot, which has to be given as it was added. No memory is taken.
    pub fn remove(&mut self, slot: usize, ad: &Ad)
        ensures { (before after : List Row)
            → IsKept self.old (before ++ row_of slot (ad_frames ad.now) ∷ after)
            → IsKept self.new (before ++ after) }
    {
        if self.waiting.remove(&slot).is_some() {
            return;
        }
        take_attributes(&mut self.entries, slot, ad, ad.count(0));
        self.slots.remove(&slot);
    }

    /// Settles the ads that wait, so that the index can be searched. Where memory is wanting, those that are left go on
    /// waiting.
    pub fn settle(&mut self) -> Result<(), OutOfMemory>
        ensures ok { OnOk result ((rows : List Row) → IsKept self.old rows → IsIndex self.new rows) }
        ensures kept { (rows : List Row) → IsKept self.old rows → IsKept self.new rows }
    {
        while let Some((slot, ad)) = self.waiting.first_key_value() {
            let slot = *slot;
            enter(
                self.alloc,
                &mut self.names,
                &mut self.entries,
                &mut self.slots,
                slot,
                ad,
            )?;
            self.waiting.remove(&slot);
        }
        Ok(())
    }

    /// The slots of the ads that a test leaves, in rising order and without repeats.
    ///
    /// A test leaves an ad whose literal makes it true, one whose attribute is no literal and so decides nothing, and,
    /// where the test is true of Undefined, one without the attribute. Requirements are conjunctions (Raman, Livny,
    /// Solomon 1998), so all other ads fail them.
    pub fn hits(&self, test: &Test) -> Result<Slots, OutOfMemory>
        ensures hits { IfOk result (λ slots. (rows : List Row) → IsIndex self.now rows
            → IsPermutation (passing_slots test.now rows) slots) }
        ensures rising { IfOk result (λ slots. (rows : List Row) → IsIndex self.now rows
            → IsStrictlyIncreasing slots) }
    {
        let mut chosen = Vec::new(self.alloc);
        if holds(test, &Lit::Undefined) {
            push_chosen(
                &self.entries,
                test,
                Choice::Untrue,
                Span::failing(test),
                &mut chosen,
            )?;
            return others(self.alloc, &self.slots, &in_order(chosen)?);
        }
        push_chosen(&self.entries, test, Choice::Open, OPEN, &mut chosen)?;
        push_chosen(
            &self.entries,
            test,
            Choice::True,
            Span::passing(test),
            &mut chosen,
        )?;
        listed(self.alloc, &in_order(chosen)?)
    }

    /// How many slots `hits` has to answer. No memory is taken.
    pub fn count(&self, test: &Test) -> usize
        ensures { (rows : List Row) → IsIndex self.now rows → result ≡ length (passing_slots test.now rows) }
    {
        if holds(test, &Lit::Undefined) {
            let failing = count_chosen(&self.entries, test, Choice::Untrue, Span::failing(test));
            return self.slots.len().saturating_sub(failing);
        }
        count_chosen(&self.entries, test, Choice::Open, OPEN)
            + count_chosen(&self.entries, test, Choice::True, Span::passing(test))
    }

    /// The same number, or the most that is asked for where it is more. A test that leaves many slots costs no more time
    /// than one that leaves so many. No memory is taken.
    pub fn count_within(&self, test: &Test, most: usize) -> usize
        ensures { (rows : List Row) → IsIndex self.now rows → result ≡ min (length (passing_slots test.now rows)) most }
    {
        if holds(test, &Lit::Undefined) {
            return self.count(test).min(most);
        }
        let open = count_chosen_within(&self.entries, test, Choice::Open, OPEN, most);
        let passing = Span::passing(test);
        open + count_chosen_within(&self.entries, test, Choice::True, passing, most - open)
    }

    /// The slots of the ads that both tests of a pair (`is_pair`) leave, in rising order and without repeats.
    ///
    /// Both tests, such as the two ends of a range, are true only of literals that stand in the spans of both, so what
    /// these have in common is all that is looked through.
    pub fn hits_of_both(&self, first: &Test, second: &Test) -> Result<Slots, OutOfMemory>
        requires { IsTrue (is_pair first.now second.now) }
        ensures hits { IfOk result (λ slots. (rows : List Row) → IsIndex self.now rows
            → IsPermutation (passing_both first.now second.now rows) slots) }
        ensures rising { IfOk result (λ slots. (rows : List Row) → IsIndex self.now rows
            → IsStrictlyIncreasing slots) }
    {
        let mut chosen = Vec::new(self.alloc);
        push_chosen(&self.entries, first, Choice::Open, OPEN, &mut chosen)?;
        push_chosen_by_both(&self.entries, first, second, &mut chosen)?;
        listed(self.alloc, &in_order(chosen)?)
    }

    /// How many slots `hits_of_both` has to answer, or the most that is asked for where it is more. No memory is taken.
    pub fn count_both_within(&self, first: &Test, second: &Test, most: usize) -> usize
        requires { IsTrue (is_pair first.now second.now) }
        ensures { (rows : List Row) → IsIndex self.now rows
            → result ≡ min (length (passing_both first.now second.now rows)) most }
    {
        let open = count_chosen_within(&self.entries, first, Choice::Open, OPEN, most);
        open + count_chosen_by_both_within(&self.entries, first, second, most - open)
    }
}

// Puts in what is searched for an ad under a slot. Want of memory leaves all as it was.
fn enter(
    alloc: Global,
    names: &mut NameCache,
    entries: &mut BTreeMap<Place, Entry>,
    slots: &mut BTreeSet<usize>,
    slot: usize,
    ad: &Ad,
) -> Result<(), OutOfMemory>
    ensures ok { OnOk result ((under : ℕ → Option (List Frame)) → ArePlaced entries.old slots.old under
        → under slot ≡ None → ArePlaced entries.new slots.new (with_ad slot (ad_frames ad.now) under)) }
    ensures err { OnErr result ((under : ℕ → Option (List Frame)) → ArePlaced entries.old slots.old under
        → under slot ≡ None → ArePlaced entries.new slots.new under) }
{
    slots.insert(slot)?;
    if let Err(refused) = put_attributes(alloc, names, entries, slot, ad) {
        slots.remove(&slot);
        return Err(refused);
    }
    Ok(())
}
