// Why a request matches the ads that it matches.
ghost use Rattle.std.specs.Prelude.{◌≡◌, ◌≤◌, ◌+◌, ◌*◌, [], length, map, All, IfOk, OnOk};
ghost use Rattle.pool_steps.specs.Spent.{IsPaid, IsSame};
ghost use Rattle.ad_store.specs.Store.{stock_of};
ghost use Rattle.ad_tree.specs.Ad.{ad_frames};
ghost use Rattle.ad_tree.specs.Small.{IsSmall};
ghost use Rattle.ad_tree.specs.Tree.{tree};
ghost use Rattle.conjunct_plan.specs.Tests.{conjuncts_at};
ghost use Rattle.match_explain.specs.Counted.{evaluations_most, rows_of};
ghost use Rattle.match_explain.specs.Why as why;

use crate::counting::zeros;
use crate::judging::{Question, conjuncts_in, judge};
use crate::{Conjunct, Conjuncts, Report, Verdicts};
use ad_printer::print_expr;
use ad_store::Store;
use ad_tree::Request;
use pool_steps::{Meter, Steps};
use pool_text::OutOfMemory;
use std::alloc::Global;
use std::sync::ledger::Ledger;

/// For how many ads of the store each conjunct of the request's requirement holds, and for each ad what keeps it from
/// matching, as two-way matching has it (Raman, Livny and Solomon 1998). The request has no ports. Offers and claims don't
/// matter.
///
/// It counts in `touch` one for each ad, and in `tops` one at most for each ad and conjunct of either side.
pub fn explain<'a, F: Ledger, E: Ledger, T: Ledger>(
    alloc: Global,
    store: &Store,
    request: &Request,
    moment: u64,
    tops: &'a mut Steps<F>,
    entry: &'a mut Steps<E>,
    touch: &'a mut Steps<T>,
) -> Result<Report, OutOfMemory>
    requires { request.now.ports ≡ [] }
    ensures report { IfOk result (λ report. report ≡ why.explained moment (ad_frames request.now.ad) (stock_of store.now).ads) }
    ensures evaluations { tops.new ≤ tops.old + evaluations_most (ad_frames request.now.ad) (stock_of store.now).ads }
    ensures ratio { IsSmall (ad_frames request.now.ad) → All (λ advert. IsSmall advert.ad) (stock_of store.now).ads
        → entry.new + 9216 * tops.old ≤ entry.old + 9216 * tops.new }
    ensures looks { touch.new ≤ touch.old + length (stock_of store.now).ads }
{
    let question = Question {
        alloc,
        request,
        conjuncts: conjuncts_in(alloc, &request.ad)?,
        moment,
    };
    let mut counts = zeros(alloc, &question.conjuncts)?;
    let mut meter = Meter::new(tops, entry, touch);
    let verdicts = verdicts(&question, store, &mut counts, &mut meter)?;
    let conjuncts = rows(&question, &counts)?;
    Ok(Report {
        conjuncts,
        verdicts,
    })
}

// The verdict on each ad of the store; the conjuncts that hold are counted.
fn verdicts<F: Ledger, E: Ledger, T: Ledger>(
    question: &Question<'_>,
    store: &Store,
    counts: &mut [u64],
    meter: &mut Meter<'_, F, E, T>,
) -> Result<Verdicts, OutOfMemory>
    requires single { question.now.request.now.ports ≡ [] }
    requires gathered { map (λ e. tree e.now) question.now.conjuncts.items ≡ conjuncts_at (ad_frames question.now.request.now.ad) 0 }
    requires none { counts.old ≡ map (λ t. 0) (conjuncts_at (ad_frames question.now.request.now.ad) 0) }
    ensures verdicts { let request = ad_frames question.now.request.now.ad in
        IfOk result (λ verdicts. verdicts ≡ why.verdicts question.now.moment request (stock_of store.now).ads) }
    ensures counts { let request = ad_frames question.now.request.now.ad in
        OnOk result (counts.new ≡ map (why.holding question.now.moment request (stock_of store.now).ads) (conjuncts_at request 0)) }
    ensures same { IsSame meter.old meter.new }
    ensures evaluations { meter.new.tops.now ≤ meter.old.tops.now
        + evaluations_most (ad_frames question.now.request.now.ad) (stock_of store.now).ads }
    ensures ratio { IsSmall (ad_frames question.now.request.now.ad) → All (λ advert. IsSmall advert.ad) (stock_of store.now).ads
        → IsPaid meter.old meter.new }
    ensures looks { meter.new.touch.now ≤ meter.old.touch.now + length (stock_of store.now).ads }
{
    let mut verdicts = Verdicts::new(question.alloc);
    for place in 0..store.len() {
        let ad = store.look(store.at(place), meter.touch);
        let verdict = judge(question, ad, counts, meter.tops, meter.entry)?;
        verdicts.push(verdict)?;
    }
    Ok(verdicts)
}

// The text of each conjunct, with its count.
fn rows(question: &Question<'_>, counts: &[u64]) -> Result<Conjuncts, OutOfMemory>
    requires { length counts.now ≡ length question.now.conjuncts.items }
    ensures { IfOk result (λ rows. rows ≡ rows_of (ad_frames question.now.request.now.ad) (map (λ e. tree e.now) question.now.conjuncts.items) counts.now) }
{
    let mut rows = Conjuncts::new(question.alloc);
    for i in 0..question.conjuncts.len() {
        let text = print_expr(question.alloc, &question.request.ad, question.conjuncts[i])?;
        rows.push(Conjunct {
            text,
            holds: counts[i],
        })?;
    }
    Ok(rows)
}
