// The ads of a pool with the index of their literals.
ghost use Rattle.std.specs.Prelude.{◌≡◌, ◌≢◌, ◌+◌, ◌≤◌, [], true, false, not, IfErr, IfNone, IfOk, IfSome, None, OnErr, OnOk, Some};
ghost use Rattle.ad_store.specs.Answers.{is_added, slot_put, slots_put};
ghost use Rattle.ad_store.specs.Stock.{has, lack, placed, slot_named, slots_without, without};
ghost use Rattle.ad_store.specs.Store.{stock_of};
ghost use Rattle.ad_tree.specs.Ad.{ad_frames};
ghost use Rattle.ad_tree.specs.Small.{IsSmall};
ghost use Rattle.literal_index.specs.Shown.{IsIndex, IsKept};
ghost use Rattle.ad_candidates.specs.Rows.{rows_of};
ghost use Rattle.dock_match.specs.Small.{AreSmallAds};
ghost use Rattle.pool_books.specs.Stocks.{stock_without};
ghost use Rattle.pool_books.specs.Wanting.{IsGone};

use crate::Advertised;
use ad_store::{NoName, Put, PutFault, Store};
use literal_index::Index;
use pool_steps::Steps;
use pool_text::OutOfMemory;
use std::alloc::Global;
use std::sync::ledger::Ledger;

/// Why an ad isn't put, and, where the ad of its name had to leave since memory was wanting, the slot that that ad had.
#[derive(Drop)]
pub struct NotPut {
    pub fault: PutFault,
    pub gone: Option<usize>,
}

/// The ads that are held, and the index of them, each under its slot. No ad has more than 1,024 attributes. Whoever parses an
/// ad for them takes their seed, on which the hashes of its names depend.
#[derive(Drop)]
pub struct IndexedStore {
    pub store: Store,
    pub index: Index,
    pub seed: u64,
    ghost indexed: { ∥ IsKept index (rows_of (stock_of store)) ∥₁ },
    ghost small: { AreSmallAds (stock_of store).ads },
}

impl IndexedStore {
    ghost use Rattle.ad_store.specs.Stock.{Advert};
    ghost use Rattle.pool_books.specs.Adverts.{advert_of};
    ghost use Rattle.pool_books.specs.Indexed.{ads_of};

    pub fn new(alloc: Global, seed: u64) -> IndexedStore
        ensures { ads_of result ≡ [] }
    {
        IndexedStore {
            store: Store::new(alloc),
            index: Index::new(alloc),
            seed,
        }
    }

    /// Puts an ad under a name, as the store does, and counts at most two in `touch`. Where it isn't put, the ads are as they
    /// were, unless memory was wanting: then the ad of the name may be gone.
    pub fn put<T: Ledger>(
        &mut self,
        advertised: Advertised<'_>,
        touch: &mut Steps<T>,
    ) -> Result<Put, NotPut>
        requires small { IsSmall (ad_frames advertised.ad) }
        ensures ads { OnOk result (ads_of self.new ≡ placed (advert_of advertised.entry) (ads_of self.old)) }
        ensures slots { IfOk result (λ put. (stock_of self.new.store).slots ≡ slots_put put (stock_of self.old.store).slots) }
        ensures added { IfOk result (λ put. is_added put ≡ not (has advertised.entry.name.now (ads_of self.old))) }
        ensures room { OnOk result (lack advertised.entry.name.now advertised.entry.text_len (ads_of self.old) ≡ None) }
        ensures cause { IfErr result (λ end. end.fault ≢ PutFault.OutOfMemory
            → lack advertised.entry.name.now advertised.entry.text_len (ads_of self.old) ≡ Some end.fault) }
        ensures kept { IfErr result (λ end. IfNone end.gone (stock_of self.new.store ≡ stock_of self.old.store)) }
        ensures gone { IfErr result (λ end. IfSome end.gone (IsGone advertised.entry.name.now end.fault (stock_of self.old.store) (stock_of self.new.store))) }
        ensures looks { touch.new ≤ touch.old + 2 }
    {
        let Advertised {
            name,
            born,
            lifetime,
            text_len,
            ad,
        } = advertised;
        let held = forget(&self.store, &mut self.index, name, touch);
        let put = self.store.put(name, born, lifetime, text_len, ad);
        let slot = slot_behind(put, held);
        if remember(&mut self.store, &mut self.index, name, slot, touch).is_err() {
            return Err(NotPut {
                fault: PutFault::OutOfMemory,
                gone: held,
            });
        }
        match put {
            Ok(put) => Ok(put),
            Err(fault) => Err(NotPut { fault, gone: None }),
        }
    }

    /// Takes note of when the next ad expires, for a moment at which none is left to expire.
    pub fn note_soonest(&mut self, now: u64)
        ensures { stock_of self.new.store ≡ stock_of self.old.store }
    {
        self.store.note_soonest(now);
    }

    /// Takes out the ad of a name, as the store does, and counts at most one in `touch`.
    pub fn withdraw<T: Ledger>(&mut self, name: &[u8], touch: &mut Steps<T>) -> Result<(), NoName>
        ensures held { OnOk result (has name.now (ads_of self.old) ≡ true) }
        ensures ads { OnOk result (ads_of self.new ≡ without name.now (ads_of self.old)) }
        ensures slots { OnOk result ((stock_of self.new.store).slots
            ≡ slots_without name.now (ads_of self.old) (stock_of self.old.store).slots) }
        ensures none { OnErr result (has name.now (ads_of self.old) ≡ false) }
        ensures err { OnErr result (stock_of self.new.store ≡ stock_of self.old.store) }
        ensures looks { touch.new ≤ touch.old + 1 }
    {
        forget(&self.store, &mut self.index, name, touch);
        self.store.withdraw(name)?;
        Ok(())
    }

    /// Closes the gaps in the order of the ads, which stay as they are.
    pub fn settle_order(&mut self)
        ensures { stock_of self.new.store ≡ stock_of self.old.store }
    {
        self.store.settle_order();
    }

    /// Makes the order and the index ready for searches. The ads stay as they are, also where memory is wanting.
    pub fn settle(&mut self) -> Result<(), OutOfMemory>
        ensures store { stock_of self.new.store ≡ stock_of self.old.store }
        ensures ok { OnOk result (IsIndex self.new.index (rows_of (stock_of self.new.store))) }
    {
        self.store.settle_order();
        self.index.settle()
    }
}

// Takes the ad of a name out of the index, so that the index is that of the other ads. Answers the ad's slot, if there is one.
fn forget<T: Ledger>(
    store: &Store,
    index: &mut Index,
    name: &[u8],
    touch: &mut Steps<T>,
) -> Option<usize>
    ensures slot { result ≡ slot_named name.now (stock_of store.now) }
    ensures others { IsKept index.old (rows_of (stock_of store.now))
        → IsKept index.new (rows_of (stock_without name.now (stock_of store.now))) }
    ensures looks { touch.new ≤ touch.old + 1 }
{
    let slot = store.slot_of(name)?;
    index.remove(slot, store.look(slot, touch));
    Some(slot)
}

// The slot of the ad of a name behind a put that was answered so, where it had this one before.
fn slot_behind(put: Result<Put, PutFault>, held: Option<usize>) -> Option<usize>
    ensures put { IfOk put (λ put. result ≡ Some (slot_put put)) }
    ensures held { OnErr put (result ≡ held) }
{
    match put {
        Ok(Put::Added(slot)) | Ok(Put::Replaced(slot)) => Some(slot),
        Err(_) => held,
    }
}

// Adds the ad of a name, which is in this slot, to the index of the other ads. Where memory is wanting, the ad is withdrawn.
fn remember<T: Ledger>(
    store: &mut Store,
    index: &mut Index,
    name: &[u8],
    slot: Option<usize>,
    touch: &mut Steps<T>,
) -> Result<(), OutOfMemory>
    requires { slot ≡ slot_named name.now (stock_of store.old) }
    ensures all { OnOk result (IsKept index.old (rows_of (stock_without name.now (stock_of store.old)))
        → IsKept index.new (rows_of (stock_of store.old))) }
    ensures same { OnOk result (stock_of store.new ≡ stock_of store.old) }
    ensures gone { OnErr result (IsKept index.old (rows_of (stock_without name.now (stock_of store.old)))
        → IsKept index.new (rows_of (stock_of store.new))) }
    ensures without { OnErr result (stock_of store.new ≡ stock_without name.now (stock_of store.old)) }
    ensures small { AreSmallAds (stock_of store.old).ads → AreSmallAds (stock_of store.new).ads }
    ensures looks { touch.new ≤ touch.old + 1 }
{
    store.slots_are_apart();
    let Some(slot) = slot else {
        return Ok(());
    };
    if index.add(slot, store.look(slot, touch)).is_err() {
        let _ = store.withdraw(name);
        return Err(OutOfMemory);
    }
    Ok(())
}
