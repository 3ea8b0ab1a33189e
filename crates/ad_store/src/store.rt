// The store: slots in order, the ads in a table of slots, and names that lead to slots.
ghost use Rattle.std.specs.Prelude.{◌≡◌, ◌==◌, ◌++◌, ◌∷◌, List, ◌+◌, ◌≤◌, ℕ, [], true, false, not, filter, find, nat_lt, ◌<◌, All, length, slice_get};
ghost use Rattle.std.specs.Prelude.{option_map, bytes_eq, IsTrue, IfErr, IfNone, IfOk, IfSome, None, OnErr, OnOk, Some, Contains};
ghost use Rattle.std.specs.List.{list_any};
ghost use Rattle.std.specs.Option.{option_map_or};
ghost use Rattle.slab.specs.Slab.{ContainsKey, Updates, get};
ghost use Rattle.slot_order.specs.Cells.{listed};
ghost use Rattle.slot_order.specs.Names.{Turns, slot_at};
ghost use Rattle.slot_order.specs.Slots.{with_last};
ghost use Rattle.ad_tree.specs.Ad.{ad_frames};
ghost use Rattle.ad_store.specs.Answers.{IsCause, is_added, slot_put, slots_put};
ghost use Rattle.ad_store.specs.Held.{AreHeld, advert_of, adverts, end_of, named_content};
ghost use Rattle.ad_store.specs.Stock.{EndFrom, ads_limit, is_live, text_held, text_limit};

use crate::entry::{Content, Entry};
use crate::{NoName, Put, PutFault};
use ad_tree::Ad;
use pool_steps::Steps;
use pool_text::{OutOfMemory, Slots, Text};
use slab::Slab;
use slot_order::{SlotNames, SlotOrder};
use std::alloc::Global;
use std::sync::ledger::Ledger;

const ADS_LIMIT: usize = 10_000;

const TEXT_LIMIT: u64 = 33_554_432;

/// The ads that are held, each under a name of its own, in the order in which their names came. An ad keeps the slot
/// that it is given until it leaves, also where another takes its place.
///
/// A name is found by comparing it with a few others, and a slot by its number; neither look-up takes memory. An ad that leaves
/// makes a gap in the order, so that none behind it is moved: `place` and `at` take a step once `settle_order` has closed the gaps.
#[derive(Drop)]
pub struct Store {
    alloc: Global,
    names: SlotNames,
    table: Slab<Entry>,
    order: SlotOrder,
    text: u64,
    // No lifetime ends before it, so that a moment before it expires nothing.
    soonest: u64,
    ghost held: { AreHeld table order (slot_at names) },
    ghost counted: { text ≡ text_held (adverts table order) },
    ghost within: { text ≤ text_limit },
    ghost few: { length order ≤ ads_limit },
    ghost due: { EndFrom soonest (adverts table order) },
}

impl Store {
    ghost use Rattle.ad_store.specs.Stock.{Advert, expired_slots, first_expired, has, lack, placed, slot_named, slots_without, without};
    ghost use Rattle.ad_store.specs.Store.{stock_of};

    /// A store that holds no ad, which takes no memory yet.
    pub fn new(alloc: Global) -> Store
        ensures { stock_of result ≡ record { ads = []; slots = [] } }
    {
        Store {
            alloc,
            names: SlotNames::new(alloc),
            table: Slab::new(alloc),
            order: SlotOrder::new(alloc),
            text: 0,
            soonest: u64::MAX,
        }
    }

    /// Puts an ad under a name, in the place of the ad that has it, or else last in a new slot.
    ///
    /// `Full` exactly where the name is new and 10,000 ads are held; `FullText`, asked next, exactly where the texts of
    /// the other ads and this one, of `text_len` bytes, are more than 33,554,432 bytes together. Where it isn't put
    /// nothing changes.
    pub fn put(
        &mut self,
        name: &[u8],
        born: u64,
        lifetime: u64,
        text_len: u64,
        ad: Ad,
    ) -> Result<Put, PutFault>
        ensures ads { OnOk result ((stock_of self.new).ads
            ≡ placed (record { name = name.now; born = born; lifetime = lifetime; size = text_len; ad = ad_frames ad }) (stock_of self.old).ads) }
        ensures slots { IfOk result (λ put. (stock_of self.new).slots ≡ slots_put put (stock_of self.old).slots) }
        ensures slot { IfOk result (λ put. slot_named name.now (stock_of self.new) ≡ Some (slot_put put)) }
        ensures added { IfOk result (λ put. is_added put ≡ not (has name.now (stock_of self.old).ads)) }
        ensures room { OnOk result (lack name.now text_len (stock_of self.old).ads ≡ None) }
        ensures cause { IfErr result (λ fault. IsCause fault (lack name.now text_len (stock_of self.old).ads)) }
        ensures err { OnErr result (stock_of self.new ≡ stock_of self.old) }
    {
        let content = Content {
            born,
            lifetime,
            size: text_len,
            ad,
        };
        self.order.slots_are_apart();
        let Some(slot) = self.slot_of(name) else {
            return self.add(name, content);
        };
        let others = self.text - size_at(&self.table, slot);
        if others.saturating_add(text_len) > TEXT_LIMIT {
            return Err(PutFault::FullText);
        }
        renew(&mut self.table, slot, content);
        self.text = others + text_len;
        self.soonest = self.soonest.min(born.saturating_add(lifetime));
        Ok(Put::Replaced(slot))
    }

    // Puts an ad under a new name.
    fn add(&mut self, name: &[u8], content: Content) -> Result<Put, PutFault>
        requires { slot_named name.now (stock_of self.old) ≡ None }
        ensures ads { OnOk result ((stock_of self.new).ads ≡ placed (named_content name.now content) (stock_of self.old).ads) }
        ensures slots { IfOk result (λ put. (stock_of self.new).slots ≡ slots_put put (stock_of self.old).slots) }
        ensures slot { IfOk result (λ put. slot_named name.now (stock_of self.new) ≡ Some (slot_put put)) }
        ensures added { IfOk result (λ put. is_added put ≡ not (has name.now (stock_of self.old).ads)) }
        ensures room { OnOk result (lack name.now content.size (stock_of self.old).ads ≡ None) }
        ensures cause { IfErr result (λ fault. IsCause fault (lack name.now content.size (stock_of self.old).ads)) }
        ensures err { OnErr result (stock_of self.new ≡ stock_of self.old) }
    {
        if self.order.len() >= ADS_LIMIT {
            return Err(PutFault::Full);
        }
        let size = content.size;
        let end = content.born.saturating_add(content.lifetime);
        if self.text.saturating_add(size) > TEXT_LIMIT {
            return Err(PutFault::FullText);
        }
        let Ok(slot) = enter(
            self.alloc,
            &mut self.names,
            &mut self.table,
            &mut self.order,
            name,
            content,
        ) else {
            return Err(PutFault::OutOfMemory);
        };
        self.text += size;
        self.soonest = self.soonest.min(end);
        Ok(Put::Added(slot))
    }

    /// Takes out the ad of a name, and gives the slot that it had. The other ads keep their order and their slots.
    pub fn withdraw(&mut self, name: &[u8]) -> Result<usize, NoName>
        ensures slot { IfOk result (λ slot. slot_named name.now (stock_of self.old) ≡ Some slot) }
        ensures held { OnOk result (has name.now (stock_of self.old).ads ≡ true) }
        ensures ads { OnOk result ((stock_of self.new).ads ≡ without name.now (stock_of self.old).ads) }
        ensures slots { OnOk result ((stock_of self.new).slots ≡ slots_without name.now (stock_of self.old).ads (stock_of self.old).slots) }
        ensures none { OnErr result (has name.now (stock_of self.old).ads ≡ false) }
        ensures err { OnErr result (stock_of self.new ≡ stock_of self.old) }
    {
        let Some(slot) = self.slot_of(name) else {
            return Err(NoName);
        };
        self.order.slots_are_apart();
        self.names.remove(name);
        self.order.remove(slot);
        let entry = self.table.remove(slot);
        self.text -= entry.content.size;
        Ok(slot)
    }

    /// How many ads are held.
    pub fn len(&self) -> usize
        ensures ads { result ≡ length (stock_of self.now).ads }
        ensures slots { result ≡ length (stock_of self.now).slots }
        ensures few { result ≤ ads_limit }
    {
        self.order.len()
    }

    /// The slot of the ad at place `i` of the order, counted from 0.
    pub fn at(&self, i: usize) -> usize
        requires { i < length (stock_of self.now).slots }
        ensures place { slice_get (stock_of self.now).slots i ≡ Some result }
        ensures held { Contains (stock_of self.now).slots result }
    {
        self.order.at(i).unwrap_or(0)
    }

    /// The place in the order of the ad in this slot.
    pub fn place(&self, slot: usize) -> usize
        requires { Contains (stock_of self.now).slots slot }
        ensures { slice_get (stock_of self.now).slots result ≡ Some slot }
    {
        self.order.place(slot).unwrap_or(0)
    }

    /// The slot of the ad of this name, `None` exactly where none is held.
    pub fn slot_of(&self, name: &[u8]) -> Option<usize>
        ensures slot { result ≡ slot_named name.now (stock_of self.now) }
        ensures held { IfSome result (Contains (stock_of self.now).slots) }
    {
        self.names.get(name)
    }

    /// The slot of the first ad in order that isn't live at a moment, `None` exactly where all are.
    pub fn next_expired(&self, now: u64) -> Option<usize>
        ensures first { result ≡ first_expired now (stock_of self.now) }
        ensures held { IfSome result (Contains (stock_of self.now).slots) }
        ensures all_live { IfNone result (filter (is_live now) (stock_of self.now).ads ≡ (stock_of self.now).ads) }
    {
        if now < self.soonest {
            return None;
        }
        first_expired(&self.table, self.order.cells(), now)
    }

    /// The slots of all ads that aren't live at a moment, in order, found in one pass.
    pub fn expired(&self, now: u64) -> Result<Slots, OutOfMemory>
        ensures slots { IfOk result (λ slots. slots ≡ expired_slots now (stock_of self.now)) }
        ensures held { IfOk result (All (Contains (stock_of self.now).slots)) }
    {
        if now < self.soonest {
            return Ok(Slots::new(self.alloc));
        }
        expired_in(self.alloc, &self.table, self.order.cells(), now)
    }

    /// Takes note of when the next ad expires, for a moment at which none is left to expire: `next_expired` goes through no ad
    /// before then.
    pub fn note_soonest(&mut self, now: u64)
        ensures { stock_of self.new ≡ stock_of self.old }
    {
        if now < self.soonest {
            return;
        }
        self.soonest = soonest_end(&self.table, self.order.cells());
    }

    /// Closes the gaps that ads left in the order, so that `at` and `place` take a step each until an ad leaves.
    pub fn settle_order(&mut self)
        ensures { stock_of self.new ≡ stock_of self.old }
    {
        self.order.settle();
    }

    // What lies in a slot.
    fn entry(&self, slot: usize) -> &Entry
        requires { Contains (stock_of self.now).slots slot }
        ensures entry { get self.now.table slot ≡ Some result.now }
        ensures advert { (i : ℕ) → slice_get (stock_of self.now).slots i ≡ Some slot
            → slice_get (stock_of self.now).ads i ≡ Some (named_content result.now.name result.now.content) }
    {
        &self.table[slot]
    }

    /// The name of the ad in this slot.
    pub fn name(&self, slot: usize) -> &Text
        requires { Contains (stock_of self.now).slots slot }
        ensures { (i : ℕ) → slice_get (stock_of self.now).slots i ≡ Some slot
            → option_map (λ a. a.name) (slice_get (stock_of self.now).ads i) ≡ Some result.now }
    {
        &self.entry(slot).name
    }

    /// The moment of the birth of the ad in this slot, in seconds.
    pub fn born(&self, slot: usize) -> u64
        requires { Contains (stock_of self.now).slots slot }
        ensures { (i : ℕ) → slice_get (stock_of self.now).slots i ≡ Some slot
            → option_map (λ a. a.born) (slice_get (stock_of self.now).ads i) ≡ Some result }
    {
        self.entry(slot).content.born
    }

    /// The lifetime of the ad in this slot, in seconds.
    pub fn lifetime(&self, slot: usize) -> u64
        requires { Contains (stock_of self.now).slots slot }
        ensures { (i : ℕ) → slice_get (stock_of self.now).slots i ≡ Some slot
            → option_map (λ a. a.lifetime) (slice_get (stock_of self.now).ads i) ≡ Some result }
    {
        self.entry(slot).content.lifetime
    }

    /// Whether the ad in this slot is live at a moment, in seconds: the moment is before its birth plus its lifetime.
    pub fn is_live(&self, slot: usize, now: u64) -> bool
        requires { Contains (stock_of self.now).slots slot }
        ensures { (i : ℕ) → slice_get (stock_of self.now).slots i ≡ Some slot
            → option_map (is_live now) (slice_get (stock_of self.now).ads i) ≡ Some result }
    {
        is_within(now, self.born(slot), self.lifetime(slot))
    }

    /// The ad in this slot. Counts one in `touch`.
    pub fn look<T: Ledger>(&self, slot: usize, touch: &mut Steps<T>) -> &Ad
        requires { Contains (stock_of self.now).slots slot }
        ensures ad { (i : ℕ) → slice_get (stock_of self.now).slots i ≡ Some slot
            → option_map (λ a. a.ad) (slice_get (stock_of self.now).ads i) ≡ Some (ad_frames result.now) }
        ensures counted { touch.new ≡ touch.old + 1 }
    {
        touch.tick();
        &self.entry(slot).content.ad
    }

    /// Law: no two ads have one name.
    pub fn names_are_apart(&self)
        ensures { (i j : ℕ) (a b : Advert)
            → slice_get (stock_of self.now).ads i ≡ Some a
            → slice_get (stock_of self.now).ads j ≡ Some b
            → a.name ≡ b.name
            → i ≡ j }
    {
        self.order.slots_are_apart();
    }

    /// Law: no two ads have one slot.
    pub fn slots_are_apart(&self)
        ensures { (i j slot : ℕ)
            → slice_get (stock_of self.now).slots i ≡ Some slot
            → slice_get (stock_of self.now).slots j ≡ Some slot
            → i ≡ j }
    {
        self.order.slots_are_apart();
    }
}

// The first of the slots in these cells whose ad isn't live.
fn first_expired(table: &Slab<Entry>, cells: &[Option<usize>], now: u64) -> Option<usize>
    ensures { result ≡ find (λ slot. not (is_live now (advert_of (get table.now slot)))) (listed cells.now) }
{
    for k in 0..cells.len() {
        if let Some(slot) = cells[k]
            && !is_live_at(table, slot, now)
        {
            return Some(slot);
        }
    }
    None
}

// The slots in these cells whose ads aren't live, in order.
fn expired_in(
    alloc: Global,
    table: &Slab<Entry>,
    cells: &[Option<usize>],
    now: u64,
) -> Result<Slots, OutOfMemory>
    ensures { IfOk result (λ slots. slots ≡ filter (λ slot. not (is_live now (advert_of (get table.now slot)))) (listed cells.now)) }
{
    let mut slots = Slots::new(alloc);
    for k in 0..cells.len() {
        if let Some(slot) = cells[k]
            && !is_live_at(table, slot, now)
        {
            slots.push(slot)?;
        }
    }
    Ok(slots)
}

// A moment before which no ad in the slots of these cells ends its lifetime.
fn soonest_end(table: &Slab<Entry>, cells: &[Option<usize>]) -> u64
    ensures { All (λ slot. result ≤ end_of (get table.now slot)) (listed cells.now) }
{
    let mut soonest = u64::MAX;
    for k in 0..cells.len() {
        if let Some(slot) = cells[k] {
            soonest = soonest.min(end_at(table, slot));
        }
    }
    soonest
}

// When the ad in this slot ends its lifetime, or the last moment that 64 bits hold, where that is sooner.
fn end_at(table: &Slab<Entry>, slot: usize) -> u64
    ensures { result ≤ end_of (get table.now slot) }
{
    match table.get(slot) {
        Some(entry) => entry.content.born.saturating_add(entry.content.lifetime),
        None => 0,
    }
}

// Whether the ad in this slot is live.
fn is_live_at(table: &Slab<Entry>, slot: usize, now: u64) -> bool
    ensures { result ≡ is_live now (advert_of (get table.now slot)) }
{
    match table.get(slot) {
        Some(entry) => is_within(now, entry.content.born, entry.content.lifetime),
        None => false,
    }
}

// Whether a moment is before the end of a lifetime, which may be out of 64 bits.
fn is_within(now: u64, born: u64, lifetime: u64) -> bool
    ensures { result ≡ nat_lt now (born + lifetime) }
{
    now < born || now - born < lifetime
}

// The length of the text of the ad in this slot.
fn size_at(table: &Slab<Entry>, slot: usize) -> u64
    ensures { result ≡ option_map_or (λ e. e.content.size) (get table.now slot) 0 }
{
    table.get(slot).map_or(0, |entry| entry.content.size)
}

// Puts an ad in the place of the one in this slot, whose name it takes.
fn renew(table: &mut Slab<Entry>, slot: usize, content: Content)
    requires { ContainsKey table.old slot }
    ensures { IfSome (get table.old slot)
        (λ old. Updates table.old table.new slot (Some (record { name = old.name; content = content }))) }
{
    let old = table.remove(slot);
    table.insert_reserved(Entry {
        name: old.name,
        content,
    });
}

// Puts an ad under a new name into a slot of its own, which goes last. Memory is taken first.
fn enter(
    alloc: Global,
    names: &mut SlotNames,
    table: &mut Slab<Entry>,
    order: &mut SlotOrder,
    name: &[u8],
    content: Content,
) -> Result<usize, OutOfMemory>
    requires { (slot : ℕ) → list_any (λ s. s == slot) order.old ≡ true → ContainsKey table.old slot }
    ensures vacant { IfOk result (λ slot. get table.old slot ≡ None) }
    ensures order { IfOk result (λ slot. order.new ≡ order.old ++ slot ∷ []) }
    ensures turns { IfOk result (λ slot. Turns name.now (Some slot) names.old names.new) }
    ensures changes { IfOk result (λ slot. Updates table.old table.new slot (Some (record { name = name.now; content = content }))) }
    ensures order_left { OnErr result (order.new ≡ order.old) }
    ensures names_left { OnErr result ((other : List ℕ) → slot_at names.new other ≡ slot_at names.old other) }
    ensures table_left { OnErr result (table.new.slots ≡ table.old.slots) }
{
    let entry = Entry {
        name: Text::from_bytes(alloc, name)?,
        content,
    };
    table.reserve(1)?;
    let slot = table.vacant_key();
    order.push(slot)?;
    if names.insert(alloc, name, slot).is_err() {
        order.remove(slot);
        return Err(OutOfMemory);
    }
    Ok(table.insert_reserved(entry))
}
