// Names of slots.
ghost use Rattle.std.specs.Prelude.{◌≡◌, ℕ, Bool, List, None, OnErr, OnOk, Some, bytes_eq, if◌then◌else◌};
ghost use Rattle.std.specs.BTreeMap.{get};
ghost use Rattle.std.specs.Ordering.{nat_cmp};
ghost use Rattle.pool_text.specs.Digests.{name_digest};
ghost use Rattle.slot_order.specs.Names.{Turns, first_at, has_other, slot_at};

use pool_text::{OutOfMemory, name_digest};
use std::alloc::Global;
use std::collections::BTreeMap;

/// A name with the slot that it leads to.
#[derive(Drop)]
pub struct NamedSlot {
    name: Vec<u8>,
    slot: usize,
}

/// Names, each of which leads to a slot. A name is found by its digest, or else by its letters among those that came when
/// another name had their digest: in as many steps as the number of names has binary digits, whatever they are. That takes no
/// memory.
#[derive(Drop)]
pub struct SlotNames {
    // By their digests.
    firsts: BTreeMap<u64, NamedSlot>,
    // Those whose digest another name had.
    others: BTreeMap<Vec<u8>, usize>,
}

impl SlotNames {
    /// No names, which takes no memory yet.
    #[tactic(auto, unfolding(crate::specs::Names::slot_at))]
    pub fn new(alloc: Global) -> SlotNames
        ensures { (name : List ℕ) → slot_at result name ≡ None }
    {
        SlotNames {
            firsts: BTreeMap::new(alloc),
            others: BTreeMap::new(alloc),
        }
    }

    /// The slot that a name leads to, `None` exactly where it isn't there.
    #[tactic(auto, unfolding(crate::specs::Names::slot_at))]
    pub fn get(&self, name: &[u8]) -> Option<usize>
        ensures { result ≡ slot_at self.now name.now }
    {
        match self.first(name) {
            Some(slot) => Some(slot),
            None => self.others.get(name).copied(),
        }
    }

    // The slot of a name that stands under its digest.
    fn first(&self, name: &[u8]) -> Option<usize>
        ensures { result ≡ first_at self.now.firsts name.now }
    {
        let first = self.firsts.get(&name_digest(name))?;
        if first.name.as_slice() == name {
            Some(first.slot)
        } else {
            None
        }
    }

    // Whether another name stands under a digest.
    fn is_taken(&self, digest: u64, name: &[u8]) -> bool
        ensures { result ≡ has_other name.now (get nat_cmp self.now.firsts digest) }
    {
        match self.firsts.get(&digest) {
            Some(first) => first.name.as_slice() != name,
            None => false,
        }
    }

    /// Makes a name lead to a slot.
    #[tactic(auto, unfolding(crate::specs::Names::slot_at))]
    pub fn insert(&mut self, alloc: Global, name: &[u8], slot: usize) -> Result<(), OutOfMemory>
        ensures ok { OnOk result (Turns name.now (Some slot) self.old self.new) }
        ensures err { OnErr result ((other : List ℕ) → slot_at self.new other ≡ slot_at self.old other) }
    {
        let digest = name_digest(name);
        let key = Vec::from_slice(alloc, name)?;
        if self.is_taken(digest, name) {
            self.others.insert(key, slot)?;
        } else {
            self.firsts.insert(digest, NamedSlot { name: key, slot })?;
        }
        Ok(())
    }

    /// Takes out a name.
    #[tactic(auto, unfolding(crate::specs::Names::slot_at))]
    pub fn remove(&mut self, name: &[u8])
        ensures { Turns name.now None self.old self.new }
    {
        self.remove_first(name);
        self.others.remove(name);
    }

    // Takes out a name that stands under its digest.
    fn remove_first(&mut self, name: &[u8])
        ensures firsts { (other : List ℕ) → first_at self.new.firsts other
            ≡ (if bytes_eq name.now other then None else first_at self.old.firsts other) }
        ensures others { self.new.others ≡ self.old.others }
    {
        if self.first(name).is_some() {
            self.firsts.remove(&name_digest(name));
        }
    }
}
