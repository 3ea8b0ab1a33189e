// The jobs of a pool in classes that no ad tells apart.
ghost use Rattle.std.specs.Prelude.{◌≡◌, ◌+◌, ◌≤◌, List, length, IfOk, OnOk, IsTrue};
ghost use Rattle.ad_store.specs.Stock.{Advert};
ghost use Rattle.ad_tree.specs.Ad.{ad_frames};
ghost use Rattle.significant_attrs.specs.Shown.{HasReadAds};
ghost use Rattle.pool_replies.specs.Replies.{is_printable};
ghost use Rattle.pool_books.specs.Books.{queue_of};
ghost use Rattle.pool_books.specs.Indexed.{ads_of};
ghost use Rattle.pool_commands.specs.Classing as steps;
ghost use Rattle.pool_commands.specs.Keyed as keyed;

use ad_tree::Request;
use job_classes::{Classes, Key};
use pool_books::Books;
use pool_replies::{NamesList, Reply};
use pool_steps::Steps;
use pool_text::OutOfMemory;
use significant_attrs::Reach;
use std::alloc::Global;
use std::sync::ledger::Ledger;

/// `classes`: the names of all jobs in classes, each class and the jobs of each in the order of submission. It counts in `touch`
/// one at most for each ad.
#[tactic(auto, unfolding(pool_replies::specs::Replies::is_printable))]
pub fn classify<T: Ledger>(
    alloc: Global,
    books: &Books,
    touch: &mut Steps<T>,
) -> Result<Reply, OutOfMemory>
    ensures reply { IfOk result (λ reply. steps.classify (ads_of books.now.ads) (queue_of books.now) ≡ reply) }
    ensures printable { IfOk result (λ reply. IsTrue (is_printable reply)) }
    ensures looks { touch.new ≤ touch.old + length (ads_of books.now.ads) }
{
    let reach = Reach::new(alloc, &books.ads.store, touch)?;
    let claims = &books.claims;
    let mut classes = Classes::new(alloc);
    let mut lists = NamesList::new(alloc);
    for i in 0..claims.len() {
        let number = class_of(alloc, &mut classes, &reach, claims.request(i))?;
        lists.add(number, claims.job(i).copy()?)?;
    }
    Ok(Reply::Classes(lists))
}

// The number of the class that a request comes to: a gang begins a class that no other joins.
fn class_of(
    alloc: Global,
    classes: &mut Classes,
    reach: &Reach,
    request: &Request,
) -> Result<usize, OutOfMemory>
    ensures number { IfOk result (λ n. (ads : List Advert) → HasReadAds reach.now ads
        → n ≡ keyed.number_for (steps.request_key ads (ad_frames request.now.ad) request.now.ports) classes.old) }
    ensures classes { OnOk result ((ads : List Advert) → HasReadAds reach.now ads
        → classes.new ≡ keyed.keys_with (steps.request_key ads (ad_frames request.now.ad) request.now.ports) classes.old) }
{
    if request.ports.len() > 0 {
        classes.alone()
    } else {
        classes.join(Key::of(alloc, reach, request)?)
    }
}
