// Queries: the ads whose dock with a request is true.
ghost use Rattle.std.specs.Prelude.{◌≡◌, ◌+◌, ◌*◌, ◌≤◌, ◌<◌, List, [], length, map, All, Contains, IfOk, IsTrue};
ghost use Rattle.ad_parser.specs.Outcomes.{ad_outcome};
ghost use Rattle.pool_steps.specs.Spent.{IsPaid, IsSame};
ghost use Rattle.ad_store.specs.Store.{stock_of};
ghost use Rattle.ad_tree.specs.Ad.{ad_frames};
ghost use Rattle.ad_tree.specs.Small.{IsSmall};
ghost use Rattle.ad_candidates.specs.Counts.{least_left};
ghost use Rattle.bilateral_match.specs.Answers.{answers, hit_of};
ghost use Rattle.bilateral_match.specs.Counts.{undecided_count};
ghost use Rattle.bilateral_match.specs.declared.hit.Match.{Match};
ghost use Rattle.conjunct_plan.specs.Tests.{tests_of};
ghost use Rattle.literal_index.specs.Shown.{IsIndex};
ghost use Rattle.pool_script.specs.Form.{is_block_text};
ghost use Rattle.pool_replies.specs.Replies.{is_printable};
ghost use Rattle.ad_candidates.specs.Rows as rows;
ghost use Rattle.pool_books.specs.Indexed.{ads_of};
ghost use Rattle.pool_commands.specs.Queries as steps;
ghost use Rattle.pool_commands.specs.Queries.{AreHits};

use crate::faults::faulty;
use ad_parser::parse_ad_seeded;
use ad_store::Store;
use ad_tree::{Ports, Request};
use bilateral_match::{Hit, Hits};
use pool_books::IndexedStore;
use pool_replies::{HitRow, HitRows, Reply};
use pool_steps::Meter;
use pool_text::OutOfMemory;
use std::alloc::Global;
use std::sync::ledger::Ledger;

/// `query`: the ads that dock with the request of the block, by its rank falling and then in order. It counts in `tops` five
/// at most for each dock that literal attributes leave undecided, and in `touch` no more than the ads that the narrowest test
/// of the request leaves.
#[tactic(auto, unfolding(pool_replies::specs::Replies::is_printable, pool_replies::specs::Refusals::is_printable_refusal))]
pub fn query<F: Ledger, E: Ledger, T: Ledger>(
    alloc: Global,
    ads: &IndexedStore,
    moment: u64,
    block: &[u8],
    meter: &mut Meter<'_, F, E, T>,
) -> Result<Reply, OutOfMemory>
    requires block { IsTrue (is_block_text block.now) }
    requires index { IsIndex ads.now.index (rows.rows_of (stock_of ads.now.store)) }
    ensures reply { IfOk result (λ reply. steps.query moment (ads_of ads.now) (ad_outcome block.now) ≡ reply) }
    ensures printable { IfOk result (λ reply. IsTrue (is_printable reply)) }
    ensures cost { meter.new.tops.now ≤ meter.old.tops.now + 5 * steps.undecided_docks (ads_of ads.now) (ad_outcome block.now) }
    ensures same { IsSame meter.old meter.new }
    ensures ratio { IsPaid meter.old meter.new }
    ensures looks { meter.new.touch.now ≤ meter.old.touch.now + steps.narrowest (ads_of ads.now) (ad_outcome block.now) }
{
    let ad = match parse_ad_seeded(alloc, ads.seed, block) {
        Ok(ad) => ad,
        Err(fault) => return faulty(fault),
    };
    let request = Request {
        ad,
        ports: Ports::new(alloc),
    };
    let rows = hit_rows(alloc, ads, &request, moment, meter);
    drop(request);
    Ok(Reply::Hits(rows?))
}

// The rows of the ads that dock with a request.
fn hit_rows<F: Ledger, E: Ledger, T: Ledger>(
    alloc: Global,
    ads: &IndexedStore,
    request: &Request,
    moment: u64,
    meter: &mut Meter<'_, F, E, T>,
) -> Result<HitRows, OutOfMemory>
    requires ports { request.now.ports ≡ [] }
    requires index { IsIndex ads.now.index (rows.rows_of (stock_of ads.now.store)) }
    ensures rows { IfOk result (λ rows. rows
        ≡ map (steps.hit_row (ads_of ads.now)) (answers moment (ad_frames request.now.ad) (ads_of ads.now))) }
    ensures cost { meter.new.tops.now ≤ meter.old.tops.now + 3 * undecided_count (ad_frames request.now.ad) (ads_of ads.now) }
    ensures same { IsSame meter.old meter.new }
    ensures ratio { IsSmall (ad_frames request.now.ad) → IsPaid meter.old meter.new }
    ensures looks { meter.new.touch.now ≤ meter.old.touch.now + least_left (ads_of ads.now) (tests_of (ad_frames request.now.ad) 0 []) }
{
    bilateral_match::answers_are_all_matches_in_order(moment, &request.ad);
    let hits = bilateral_match::query(
        alloc,
        &ads.store,
        &ads.index,
        request,
        moment,
        meter.tops,
        meter.entry,
        meter.touch,
    )?;
    rows_of(alloc, &ads.store, &hits)
}

// The rows of hits, one after another.
fn rows_of(alloc: Global, store: &Store, hits: &Hits) -> Result<HitRows, OutOfMemory>
    requires { All (λ hit. Contains (stock_of store.now).slots hit.slot) hits.now }
    ensures { IfOk result (λ rows. (matches : List Match) → AreHits (stock_of store.now).slots matches hits.now
        → rows ≡ map (steps.hit_row (stock_of store.now).ads) matches) }
{
    let mut rows = HitRows::new(alloc);
    for i in 0..hits.len() {
        rows.push(row(store, hits.at(i))?)?;
    }
    Ok(rows)
}

fn row(store: &Store, hit: &Hit) -> Result<HitRow, OutOfMemory>
    requires { Contains (stock_of store.now).slots hit.now.slot }
    ensures { IfOk result (λ row. (m : Match) → m.place < length (stock_of store.now).slots
        → hit.now ≡ hit_of (stock_of store.now).slots m
        → row ≡ steps.hit_row (stock_of store.now).ads m) }
{
    Ok(HitRow {
        name: store.name(hit.slot).copy()?,
        rank: hit.rank,
    })
}
