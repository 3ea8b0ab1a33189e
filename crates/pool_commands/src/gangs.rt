// Gangs: the resources that the ports of a request are given.
ghost use Rattle.std.specs.Prelude.{◌≡◌, ◌+◌, ◌*◌, ◌≤◌, IfOk, IfSome, IsTrue, Some};
ghost use Rattle.ad_parser.specs.Outcomes.{ad_outcome};
ghost use Rattle.pool_steps.specs.Spent.{IsPaid, IsSame};
ghost use Rattle.ad_store.specs.Store.{stock_of};
ghost use Rattle.ad_tree.specs.Ad.{ad_frames};
ghost use Rattle.ad_tree.specs.Requests.{ArePorts};
ghost use Rattle.ad_tree.specs.Small.{IsSmall};
ghost use Rattle.ad_candidates.specs.Rows.{rows_of};
ghost use Rattle.claim_table.specs.Settings.{settings_of};
ghost use Rattle.gang_ports.specs.Gangs.{looks_most};
ghost use Rattle.gang_ports.specs.Ports.{ports_of};
ghost use Rattle.literal_index.specs.Shown.{IsIndex};
ghost use Rattle.pool_script.specs.Form.{is_block_text};
ghost use Rattle.pool_replies.specs.Replies.{is_printable};
ghost use Rattle.pool_books.specs.Books.{queue_of};
ghost use Rattle.pool_books.specs.Indexed.{ads_of};
ghost use Rattle.pool_books.specs.Negotiation.{pool_in};
ghost use Rattle.pool_commands.specs.Gangs as steps;

use crate::faults::faulty;
use ad_parser::parse_ad_seeded;
use ad_tree::{Ad, Ports, Request};
use claim_table::{Priorities, Standing};
use gang_ports::{PortsFault, first_gang, read_ports};
use pool_books::{Books, names_of};
use pool_replies::{Refusal, Reply};
use pool_steps::Meter;
use pool_text::{Names, OutOfMemory};
use std::alloc::Global;
use std::convert::AsSlice;
use std::sync::ledger::Ledger;

/// `gang`: the resources that the ports of the request of the block are given among those that are free. Nothing is offered. It
/// counts in `tops` three at most for each dock that literal attributes leave undecided, where a port that no choice for the ports
/// before it bears on counts once alone, and in `touch` no more than the ads that the narrowest test of each port leaves.
#[tactic(auto, unfolding(pool_replies::specs::Replies::is_printable, pool_replies::specs::Refusals::is_printable_refusal))]
pub fn gang<F: Ledger, E: Ledger, T: Ledger>(
    alloc: Global,
    books: &Books,
    priorities: &Priorities,
    moment: u64,
    block: &[u8],
    meter: &mut Meter<'_, F, E, T>,
) -> Result<Reply, OutOfMemory>
    requires block { IsTrue (is_block_text block.now) }
    requires index { IsIndex books.now.ads.index (rows_of (stock_of books.now.ads.store)) }
    ensures reply { IfOk result (λ reply. steps.gang moment (ads_of books.now.ads) (settings_of priorities.now) (queue_of books.now) (ad_outcome block.now)
        ≡ reply) }
    ensures printable { IfOk result (λ reply. IsTrue (is_printable reply)) }
    ensures cost { meter.new.tops.now ≤ meter.old.tops.now + 3 * steps.undecided_for_gang moment (ads_of books.now.ads) (settings_of priorities.now) (queue_of
        books.now) (ad_outcome block.now) }
    ensures same { IsSame meter.old meter.new }
    ensures ratio { IsPaid meter.old meter.new }
    ensures looks { meter.new.touch.now ≤ meter.old.touch.now + steps.narrowest_for_gang (ads_of books.now.ads) (ad_outcome block.now) }
{
    let ad = match parse_ad_seeded(alloc, books.ads.seed, block) {
        Ok(ad) => ad,
        Err(fault) => return faulty(fault),
    };
    let Some(ports) = listed_ports(alloc, &ad)? else {
        return Ok(Reply::Refused(Refusal::BadPorts));
    };
    let request = Request { ad, ports };
    let names = gang_names(alloc, books, priorities, &request, moment, meter);
    drop(request);
    Ok(line(names?))
}

/// The ports that an ad lists, if it lists ports of the form that a gang has.
pub(crate) fn listed_ports(alloc: Global, ad: &Ad) -> Result<Option<Ports>, OutOfMemory>
    ensures ports { IfOk result (λ ports. ports ≡ ports_of (ad_frames ad.now)) }
    ensures are_ports { IfOk result (λ ports. IfSome ports (ArePorts (ad_frames ad.now))) }
{
    match read_ports(alloc, ad) {
        Ok(ports) => Ok(Some(ports)),
        Err(PortsFault::Bad) => Ok(None),
        Err(PortsFault::OutOfMemory) => Err(OutOfMemory),
    }
}

// The names of the gang of a request, if it has one.
fn gang_names<F: Ledger, E: Ledger, T: Ledger>(
    alloc: Global,
    books: &Books,
    priorities: &Priorities,
    request: &Request,
    moment: u64,
    meter: &mut Meter<'_, F, E, T>,
) -> Result<Option<Names>, OutOfMemory>
    requires ports { ports_of (ad_frames request.now.ad) ≡ Some request.now.ports }
    requires index { IsIndex books.now.ads.index (rows_of (stock_of books.now.ads.store)) }
    ensures names { IfOk result (λ names. names
        ≡ steps.gang_names moment (ads_of books.now.ads) (settings_of priorities.now) (queue_of books.now) (ad_frames request.now.ad) request.now.ports) }
    ensures cost { meter.new.tops.now ≤ meter.old.tops.now
        + 3 * steps.open_docks_of (pool_in moment (ads_of books.now.ads) (settings_of priorities.now) (queue_of books.now)) (ad_frames request.now.ad) request.now.ports }
    ensures same { IsSame meter.old meter.new }
    ensures ratio { IsSmall (ad_frames request.now.ad) → IsPaid meter.old meter.new }
    ensures looks { meter.new.touch.now ≤ meter.old.touch.now + looks_most (ads_of books.now.ads) (ad_frames request.now.ad) request.now.ports }
{
    let ads = &books.ads;
    ads.store.names_are_apart();
    ads.store.slots_are_apart();
    let standing = Standing {
        claims: &books.claims,
        priorities,
    };
    let found = first_gang(
        alloc,
        &ads.store,
        &ads.index,
        &standing,
        request,
        moment,
        meter.tops,
        meter.entry,
        meter.touch,
    )?;
    let Some(slots) = found else {
        return Ok(None);
    };
    Ok(Some(names_of(alloc, &ads.store, slots.as_slice())?))
}

// The reply that tells a gang.
#[tactic(auto, unfolding(pool_replies::specs::Replies::is_printable))]
fn line(names: Option<Names>) -> Reply
    ensures reply { result ≡ steps.line names }
    ensures printable { IsTrue (is_printable result) }
{
    match names {
        Some(names) => Reply::Gang(names),
        None => Reply::NoGang,
    }
}
