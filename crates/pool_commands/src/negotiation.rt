// Negotiation: a cycle that offers resources to idle jobs, and its rows.
ghost use Rattle.std.specs.Prelude.{◌≡◌, ◌+◌, ◌*◌, ◌≤◌, map, All, IfOk, IsTrue};
ghost use Rattle.pool_steps.specs.Spent.{IsPaid, IsSame};
ghost use Rattle.ad_store.specs.Store.{stock_of};
ghost use Rattle.ad_candidates.specs.Rows.{rows_of};
ghost use Rattle.literal_index.specs.Shown.{IsIndex};
ghost use Rattle.claim_table.specs.Settings.{settings_of};
ghost use Rattle.pool_replies.specs.Replies.{is_printable};
ghost use Rattle.pool_books.specs.Books.{state_with};
ghost use Rattle.pool_books.specs.Negotiation as steps;
ghost use Rattle.pool_books.specs.Rows as rows;

use ad_store::Store;
use negotiator::{Cycle, Offered, OfferedList, Priorities, Turn, Turns};
use pool_books::{Books, names_of};
use pool_replies::{OfferRow, OfferRows, Reply, SpinRow, SpinRows, TurnRow, TurnRows};
use pool_steps::Meter;
use pool_text::OutOfMemory;
use std::alloc::Global;
use std::convert::AsSlice;
use std::sync::ledger::Ledger;

/// `negotiate`: a cycle offers resources to idle jobs, and its spins are told. It counts in `tops` five at most for each dock
/// of an idle job with a resource that isn't offered and that literal attributes leave undecided, and in `touch` nine at most
/// for each ad that the narrowest test of a single idle job leaves, and one at a port of a gang.
#[tactic(auto, unfolding(pool_replies::specs::Replies::is_printable))]
pub fn negotiate<F: Ledger, E: Ledger, T: Ledger>(
    alloc: Global,
    books: &mut Books,
    priorities: &Priorities,
    moment: u64,
    meter: &mut Meter<'_, F, E, T>,
) -> Result<Reply, OutOfMemory>
    requires { IsIndex books.old.ads.index (rows_of (stock_of books.old.ads.store)) }
    ensures step { IfOk result (λ reply. steps.negotiate (state_with moment (settings_of priorities.now) books.old)
        ≡ (state_with moment (settings_of priorities.now) books.new, reply)) }
    ensures printable { IfOk result (λ reply. IsTrue (is_printable reply)) }
    ensures cost { meter.new.tops.now ≤ meter.old.tops.now + 5 * steps.undecided_for_jobs (state_with moment (settings_of priorities.now) books.old) }
    ensures same { IsSame meter.old meter.new }
    ensures ratio { IsPaid meter.old meter.new }
    ensures looks { meter.new.touch.now ≤ meter.old.touch.now + steps.looks_for_jobs (state_with moment (settings_of priorities.now) books.old) }
{
    let spins = books.negotiate(alloc, priorities, moment, meter)?;
    let rows = spin_rows(alloc, &books.ads.store, &spins);
    drop(spins);
    Ok(Reply::Cycle(rows?))
}

// The rows of spins.
fn spin_rows(alloc: Global, store: &Store, spins: &Cycle) -> Result<SpinRows, OutOfMemory>
    requires { All (rows.IsSpinHeld (stock_of store.now).slots) spins.now }
    ensures { IfOk result (λ r. r ≡ map (rows.spin_row (stock_of store.now)) spins.now) }
{
    let mut list = SpinRows::new(alloc);
    for i in 0..spins.len() {
        let spin = spins.at(i);
        let turns = turn_rows(alloc, store, &spin.turns)?;
        list.push(SpinRow {
            free: spin.free,
            turns,
        })?;
    }
    Ok(list)
}

// The rows of turns.
fn turn_rows(alloc: Global, store: &Store, turns: &Turns) -> Result<TurnRows, OutOfMemory>
    requires { All (rows.IsTurnHeld (stock_of store.now).slots) turns.now }
    ensures { IfOk result (λ r. r ≡ map (rows.turn_row (stock_of store.now)) turns.now) }
{
    let mut list = TurnRows::new(alloc);
    for i in 0..turns.len() {
        list.push(turn_row(alloc, store, turns.at(i))?)?;
    }
    Ok(list)
}

fn turn_row(alloc: Global, store: &Store, turn: &Turn) -> Result<TurnRow, OutOfMemory>
    requires { rows.IsTurnHeld (stock_of store.now).slots turn.now }
    ensures { IfOk result (λ r. r ≡ rows.turn_row (stock_of store.now) turn.now) }
{
    Ok(TurnRow {
        user: turn.user.copy()?,
        slice: turn.slice,
        offers: offer_rows(alloc, store, &turn.offers)?,
    })
}

// The rows of offers.
fn offer_rows(alloc: Global, store: &Store, offers: &OfferedList) -> Result<OfferRows, OutOfMemory>
    requires { All (rows.IsOfferHeld (stock_of store.now).slots) offers.now }
    ensures { IfOk result (λ r. r ≡ map (rows.offer_row (stock_of store.now)) offers.now) }
{
    let mut list = OfferRows::new(alloc);
    for i in 0..offers.len() {
        list.push(offer_row(alloc, store, offers.at(i))?)?;
    }
    Ok(list)
}

fn offer_row(alloc: Global, store: &Store, offered: &Offered) -> Result<OfferRow, OutOfMemory>
    requires { rows.IsOfferHeld (stock_of store.now).slots offered.now }
    ensures { IfOk result (λ r. r ≡ rows.offer_row (stock_of store.now) offered.now) }
{
    Ok(OfferRow {
        job: offered.job.copy()?,
        names: names_of(alloc, store, offered.slots.as_slice())?,
    })
}
