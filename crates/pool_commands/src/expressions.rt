// The values of expressions, alone or beside an ad.
ghost use Rattle.std.specs.Prelude.{◌≡◌, ◌+◌, ◌*◌, ◌≤◌, [], IfOk, IsTrue};
ghost use Rattle.ad_parser.specs.Outcomes.{expr_outcome};
ghost use Rattle.pool_steps.specs.Spent.{IsPaid, IsSame};
ghost use Rattle.ad_store.specs.Store.{stock_of};
ghost use Rattle.ad_tree.specs.Ad.{ad_frames};
ghost use Rattle.ad_tree.specs.Small.{IsSmall};
ghost use Rattle.ad_tree.specs.Tree.{tree};
ghost use Rattle.dock_match.specs.Small.{AreSmallAds};
ghost use Rattle.pool_script.specs.Form.{is_expr};
ghost use Rattle.pool_replies.specs.Replies.{is_printable};
ghost use Rattle.pool_books.specs.Indexed.{ads_of};
ghost use Rattle.pool_commands.specs.Ads.{ad_named};
ghost use Rattle.pool_commands.specs.Expressions as steps;

use crate::faults::faulty;
use ad_eval::value;
use ad_parser::parse_expr_seeded;
use ad_printer::print_value;
use ad_store::Store;
use ad_tree::{Ad, Phrase, Ports};
use eval_scope::World;
use pool_books::Books;
use pool_replies::{Refusal, Reply};
use pool_steps::{Meter, Steps};
use pool_text::{AdPlace, OutOfMemory, Text};
use std::alloc::Global;
use std::sync::ledger::Ledger;

/// `eval`: the value of the expression with nothing docked; the hashes of its names depend on the seed. It counts one in `tops`.
#[tactic(auto, unfolding(pool_replies::specs::Replies::is_printable, pool_replies::specs::Refusals::is_printable_refusal))]
pub fn eval<F: Ledger, E: Ledger>(
    alloc: Global,
    seed: u64,
    moment: u64,
    expr: &[u8],
    tops: &mut Steps<F>,
    entry: &mut Steps<E>,
) -> Result<Reply, OutOfMemory>
    requires { IsTrue (is_expr expr.now) }
    ensures reply { IfOk result (λ reply. steps.eval moment (expr_outcome expr.now) ≡ reply) }
    ensures printable { IfOk result (λ reply. IsTrue (is_printable reply)) }
    ensures cost { tops.new ≤ tops.old + 1 }
    ensures ratio { entry.new + 9216 * tops.old ≤ entry.old + 9216 * tops.new }
{
    let phrase = match parse_expr_seeded(alloc, seed, expr) {
        Ok(phrase) => phrase,
        Err(fault) => return faulty(fault),
    };
    let text = value_alone(alloc, moment, &phrase, tops, entry);
    drop(phrase);
    Ok(Reply::Evaluated(text?))
}

/// `evalin`: the value of the expression with the ad of the name docked. It counts one in `tops`, and one in `touch`.
#[tactic(auto, unfolding(pool_replies::specs::Replies::is_printable, pool_replies::specs::Refusals::is_printable_refusal))]
pub fn eval_in<F: Ledger, E: Ledger, T: Ledger>(
    alloc: Global,
    books: &Books,
    moment: u64,
    name: &[u8],
    expr: &[u8],
    meter: &mut Meter<'_, F, E, T>,
) -> Result<Reply, OutOfMemory>
    requires { IsTrue (is_expr expr.now) }
    ensures reply { IfOk result (λ reply. steps.eval_in moment (ads_of books.now.ads) name.now (expr_outcome expr.now) ≡ reply) }
    ensures printable { IfOk result (λ reply. IsTrue (is_printable reply)) }
    ensures cost { meter.new.tops.now ≤ meter.old.tops.now + 1 }
    ensures same { IsSame meter.old meter.new }
    ensures ratio { IsPaid meter.old meter.new }
    ensures looks { meter.new.touch.now ≤ meter.old.touch.now + 1 }
{
    let phrase = match parse_expr_seeded(alloc, books.ads.seed, expr) {
        Ok(phrase) => phrase,
        Err(fault) => return faulty(fault),
    };
    let reply = eval_beside(alloc, &books.ads.store, moment, name, &phrase, meter);
    drop(phrase);
    reply
}

/// The value of a phrase with the ad of the name docked.
#[tactic(auto, unfolding(pool_replies::specs::Replies::is_printable, pool_replies::specs::Refusals::is_printable_refusal))]
fn eval_beside<F: Ledger, E: Ledger, T: Ledger>(
    alloc: Global,
    store: &Store,
    moment: u64,
    name: &[u8],
    phrase: &Phrase,
    meter: &mut Meter<'_, F, E, T>,
) -> Result<Reply, OutOfMemory>
    ensures reply { IfOk result (λ reply. steps.eval_beside moment (ad_frames phrase.now.ad) (tree phrase.now.expr)
        (ad_named name.now (stock_of store.now).ads) ≡ reply) }
    ensures printable { IfOk result (λ reply. IsTrue (is_printable reply)) }
    ensures cost { meter.new.tops.now ≤ meter.old.tops.now + 1 }
    ensures same { IsSame meter.old meter.new }
    ensures ratio { IsSmall (ad_frames phrase.now.ad) → AreSmallAds (stock_of store.now).ads → IsPaid meter.old meter.new }
    ensures looks { meter.new.touch.now ≤ meter.old.touch.now + 1 }
{
    let Some(slot) = store.slot_of(name) else {
        return Ok(Reply::Refused(Refusal::UnknownName));
    };
    let ad = store.look(slot, meter.touch);
    let text = value_beside(alloc, moment, phrase, ad, meter.tops, meter.entry)?;
    Ok(Reply::Evaluated(text))
}

/// The printed value of a phrase with nothing docked.
fn value_alone<F: Ledger, E: Ledger>(
    alloc: Global,
    moment: u64,
    phrase: &Phrase,
    tops: &mut Steps<F>,
    entry: &mut Steps<E>,
) -> Result<Text, OutOfMemory>
    ensures text { IfOk result (λ text.
        text ≡ steps.value_line moment (ad_frames phrase.now.ad) (tree phrase.now.expr) None) }
    ensures cost { tops.new ≤ tops.old + 1 }
    ensures ratio { IsSmall (ad_frames phrase.now.ad) → entry.new + 9216 * tops.old ≤ entry.old + 9216 * tops.new }
{
    let ports = Ports::new(alloc);
    let world = World::new(moment, &phrase.ad, &ports);
    let root = AdPlace { ad: 0, frame: 0 };
    let found = value(alloc, &world, root, &phrase.expr, tops, entry)?;
    print_value(alloc, &found, &phrase.ad, None)
}

/// The printed value of a phrase with one ad docked.
fn value_beside<F: Ledger, E: Ledger>(
    alloc: Global,
    moment: u64,
    phrase: &Phrase,
    ad: &Ad,
    tops: &mut Steps<F>,
    entry: &mut Steps<E>,
) -> Result<Text, OutOfMemory>
    ensures text { IfOk result (λ text.
        text ≡ steps.value_line moment (ad_frames phrase.now.ad) (tree phrase.now.expr) (Some (ad_frames ad.now))) }
    ensures cost { tops.new ≤ tops.old + 1 }
    ensures ratio { IsSmall (ad_frames phrase.now.ad) → IsSmall (ad_frames ad.now) → entry.new + 9216 * tops.old ≤ entry.old + 9216 * tops.new }
{
    let ports = Ports::new(alloc);
    let world = World::new(moment, &phrase.ad, &ports).with(ad);
    let root = AdPlace { ad: 0, frame: 0 };
    let found = value(alloc, &world, root, &phrase.expr, tops, entry)?;
    print_value(alloc, &found, &phrase.ad, Some(ad))
}
