// The commands on the ads of the pool.
ghost use Rattle.std.specs.Prelude.{◌≡◌, ◌+◌, ◌<◌, ◌≤◌, ℕ, List, length, option_map, slice_get, Some, Contains, IfOk, IfSome, IsTrue};
ghost use Rattle.std.specs.Option.{option_and_then};
ghost use Rattle.ad_parser.specs.Outcomes.{ad_outcome};
ghost use Rattle.ad_store.specs.Store.{stock_of};
ghost use Rattle.claim_table.specs.Table.{jobs_of};
ghost use Rattle.claim_table.specs.Priorities.{Setting};
ghost use Rattle.pool_script.specs.Form.{is_block_text};
ghost use Rattle.pool_replies.specs.Replies.{is_printable};
ghost use Rattle.pool_books.specs.Books.{queue_of, state_with};
ghost use Rattle.pool_books.specs.Indexed.{ads_of};
ghost use Rattle.pool_commands.specs.Ads as steps;

use crate::faults::faulty;
use ad_parser::parse_ad_seeded;
use ad_printer::print_ad;
use ad_store::{Put, PutFault, Store};
use claim_table::ClaimTable;
use pool_books::{Advertised, Books};
use pool_replies::{AdRow, AdRows, Refusal, Reply, Room};
use pool_steps::Steps;
use pool_text::{OutOfMemory, Text};
use std::alloc::Global;
use std::sync::ledger::Ledger;

/// What is advertised: the text of an ad, under a name, for a lifetime.
#[derive(Drop)]
pub struct Advertisement<'a> {
    pub name: &'a Text,
    pub lifetime: u64,
    pub block: &'a [u8],
}

/// `advertise`: the ad of the block is put under the name, born at the moment. It counts two at most in `touch`.
#[tactic(auto, unfolding(pool_replies::specs::Replies::is_printable, pool_replies::specs::Refusals::is_printable_refusal))]
pub fn advertise<T: Ledger>(
    alloc: Global,
    books: &mut Books,
    moment: u64,
    advertisement: Advertisement<'_>,
    touch: &mut Steps<T>,
) -> Result<Reply, OutOfMemory>
    requires { IsTrue (is_block_text advertisement.block.now) }
    ensures step { IfOk result (λ reply. (priorities : List Setting)
        → steps.advertise (state_with moment priorities books.old) advertisement.entry.name.now advertisement.entry.lifetime
        (length advertisement.entry.block.now) (ad_outcome advertisement.entry.block.now)
        ≡ (state_with moment priorities books.new, reply)) }
    ensures printable { IfOk result (λ reply. IsTrue (is_printable reply)) }
    ensures looks { touch.new ≤ touch.old + 2 }
{
    let Advertisement {
        name,
        lifetime,
        block,
    } = advertisement;
    let ad = match parse_ad_seeded(alloc, books.ads.seed, block) {
        Ok(ad) => ad,
        Err(fault) => return faulty(fault),
    };
    let named = name.copy()?;
    let advertised = Advertised {
        name: name.bytes(),
        born: moment,
        lifetime,
        text_len: block.len() as u64,
        ad,
    };
    match books.put(alloc, advertised, touch) {
        Ok(Put::Added(_)) => Ok(Reply::Advertised(named)),
        Ok(Put::Replaced(_)) => Ok(Reply::Replaced(named)),
        Err(PutFault::Full) => Ok(Reply::Refused(Refusal::Full(Room::Ads))),
        Err(PutFault::FullText) => Ok(Reply::Refused(Refusal::Full(Room::AdText))),
        Err(PutFault::OutOfMemory) => Err(OutOfMemory),
    }
}

/// `withdraw`: the ad of the name is taken out. It counts one at most in `touch`.
#[tactic(auto, unfolding(pool_replies::specs::Replies::is_printable, pool_replies::specs::Refusals::is_printable_refusal))]
pub fn withdraw<T: Ledger>(
    books: &mut Books,
    name: &Text,
    touch: &mut Steps<T>,
) -> Result<Reply, OutOfMemory>
    ensures step { IfOk result (λ reply. (moment : ℕ) (priorities : List Setting)
        → steps.withdraw (state_with moment priorities books.old) name.now ≡ (state_with moment priorities books.new, reply)) }
    ensures printable { IfOk result (λ reply. IsTrue (is_printable reply)) }
    ensures looks { touch.new ≤ touch.old + 1 }
{
    if !books.withdraw(name.bytes(), touch)? {
        return Ok(Reply::Refused(Refusal::UnknownName));
    }
    Ok(Reply::Withdrawn(name.copy()?))
}

/// `show`: the ad of the name is printed. It counts one in `touch`.
#[tactic(auto, unfolding(pool_replies::specs::Replies::is_printable, pool_replies::specs::Refusals::is_printable_refusal))]
pub fn show<T: Ledger>(
    alloc: Global,
    store: &Store,
    name: &[u8],
    touch: &mut Steps<T>,
) -> Result<Reply, OutOfMemory>
    ensures reply { IfOk result (λ reply. steps.show name.now (stock_of store.now).ads ≡ reply) }
    ensures printable { IfOk result (λ reply. IsTrue (is_printable reply)) }
    ensures looks { touch.new ≤ touch.old + 1 }
{
    let Some(slot) = store.slot_of(name) else {
        return Ok(Reply::Refused(Refusal::UnknownName));
    };
    Ok(Reply::Shown(print_ad(alloc, store.look(slot, touch), 0)?))
}

/// `list`: a row for each ad in order.
#[tactic(auto, unfolding(pool_replies::specs::Replies::is_printable))]
pub fn list(alloc: Global, books: &Books) -> Result<Reply, OutOfMemory>
    ensures reply { IfOk result (λ reply. steps.list (queue_of books.now) (ads_of books.now.ads) ≡ reply) }
    ensures printable { IfOk result (λ reply. IsTrue (is_printable reply)) }
{
    let store = &books.ads.store;
    let mut rows = AdRows::new(alloc);
    for i in 0..store.len() {
        rows.push(row(books, store.at(i))?)?;
    }
    Ok(Reply::Ads(rows))
}

// The row of the ad in a slot.
fn row(books: &Books, slot: usize) -> Result<AdRow, OutOfMemory>
    requires { Contains (stock_of books.now.ads.store).slots slot }
    ensures { IfOk result (λ row. (i : ℕ) → slice_get (stock_of books.now.ads.store).slots i ≡ Some slot
        → option_map (steps.ad_row (queue_of books.now)) (slice_get (ads_of books.now.ads) i) ≡ Some row) }
{
    let store = &books.ads.store;
    store.names_are_apart();
    store.slots_are_apart();
    let claims = &books.claims;
    Ok(AdRow {
        name: store.name(slot).copy()?,
        born: store.born(slot),
        lifetime: store.lifetime(slot),
        claimed: job_name(claims, claims.claimed_by(slot))?,
        offered: job_name(claims, claims.offered_to(slot))?,
    })
}

// The name of the job of a number, where there is one.
fn job_name(claims: &ClaimTable, number: Option<usize>) -> Result<Option<Text>, OutOfMemory>
    requires { IfSome number (λ i. i < length (jobs_of claims.now)) }
    ensures { IfOk result (λ name. name
        ≡ option_map (λ job. job.name) (option_and_then (λ i. slice_get (jobs_of claims.now) i) number)) }
{
    match number {
        Some(i) => Ok(Some(claims.job(i).copy()?)),
        None => Ok(None),
    }
}
