// Ranks that are remembered, since jobs with the same rank expression give them to the same resources.
ghost use Rattle.std.specs.Prelude.{◌≡◌, ◌<◌, ℕ, List, Option, Some, IfOk, IfSome, IsTrue, length, option_map, slice_get};
ghost use Rattle.ad_tree.specs.Ad.{ad_frames};
ghost use Rattle.ad_tree.specs.Tree.{Tree};
ghost use Rattle.ad_store.specs.Stock.{Advert};
ghost use Rattle.dock_match.specs.Docks.{rank_of_dock};
ghost use Rattle.bilateral_match.specs.Known.{AreKnown, AreRanks, known_at, rank_expr};

use crate::settled::is_rank_settled;
use ad_candidates::KnownTests;
use ad_tree::{Ad, Request, same_expr};
use pool_text::OutOfMemory;
use std::alloc::Global;

// So many rank expressions are remembered, each with a number for each resource.
const RANKINGS_LIMIT: usize = 16;

/// The ranks that requests with one rank expression give the resources of a store, by place, so far as they are known.
#[derive(Drop)]
pub struct Ranking {
    pub ranks: Vec<Option<i128>>,
}

/// A request with what is known of the ranks by its expression.
#[derive(Drop)]
pub struct Kept {
    pub ad: Ad,
    pub ranking: Ranking,
}

/// What is known of the ranks that requests give resources, for few rank expressions. A rank that hangs on literals of the
/// resource alone is evaluated once for all requests that have the same rank expression.
#[derive(Drop)]
pub struct Known {
    kept: Vec<Kept>,
    pub(crate) tests: KnownTests,
}

impl Ranking {
    /// A ranking of no places, in which no rank is known or noted. It takes no memory.
    pub(crate) fn unknown(alloc: Global) -> Ranking
        ensures { (moment : ℕ) (ads : List Advert) (expr : Option Tree) → AreRanks moment ads expr result.ranks.items }
    {
        Ranking {
            ranks: Vec::new(alloc),
        }
    }

    // A ranking of so many places, none of which is known.
    fn of_places(alloc: Global, count: usize) -> Result<Ranking, OutOfMemory>
        ensures { IfOk result (λ ranking. (moment : ℕ) (ads : List Advert) (expr : Option Tree) → AreRanks moment ads expr ranking.ranks.items) }
    {
        let ranks = vec![in alloc; None; count]?;
        Ok(Ranking { ranks })
    }

    /// The rank of the resource at a place, if it is known.
    pub(crate) fn at(&self, place: usize) -> Option<i128>
        ensures { result ≡ known_at self.now.ranks.items place }
    {
        match self.ranks.get(place) {
            Some(rank) => *rank,
            None => None,
        }
    }

    /// Notes the rank that a request gives the ad at a place, where that ad settles it.
    pub(crate) fn note(&mut self, request: &Ad, ad: &Ad, place: usize, rank: Option<i128>)
        ensures { (moment : ℕ) (ads : List Advert) → AreRanks moment ads (rank_expr (ad_frames request.now)) self.old.ranks.items
            → option_map (λ advert. advert.ad) (slice_get ads place) ≡ Some (ad_frames ad.now)
            → IfSome rank (λ n. n ≡ rank_of_dock moment (ad_frames request.now) (ad_frames ad.now))
            → AreRanks moment ads (rank_expr (ad_frames request.now)) self.new.ranks.items }
    {
        if rank.is_some() && self.is_wanting(place) && is_rank_settled(request, ad) {
            self.ranks[place] = rank;
        }
    }

    // Whether the rank at a place can be noted and isn't known yet.
    fn is_wanting(&self, place: usize) -> bool
        ensures { IsTrue result → place < length self.now.ranks.items }
    {
        matches!(self.ranks.get(place), Some(None))
    }
}

impl Known {
    /// Nothing is known yet. It takes no memory.
    pub fn new(alloc: Global) -> Known
        ensures { (moment : ℕ) (ads : List Advert) → AreKnown moment ads result }
    {
        Known {
            kept: Vec::new(alloc),
            tests: KnownTests::new(alloc),
        }
    }

    /// Takes out what is known of the ranks by the expression of a request; where that is new, the ranks of so many places
    /// can be noted in it while few expressions are remembered.
    pub(crate) fn take(
        &mut self,
        alloc: Global,
        count: usize,
        request: &Request,
    ) -> Result<Ranking, OutOfMemory>
        ensures ranking { IfOk result (λ ranking. (moment : ℕ) (ads : List Advert) → AreKnown moment ads self.old
            → AreRanks moment ads (rank_expr (ad_frames request.now.ad)) ranking.ranks.items) }
        ensures kept { (moment : ℕ) (ads : List Advert) → AreKnown moment ads self.old → AreKnown moment ads self.new }
    {
        if let Some(k) = self.place_of(&request.ad) {
            let Kept { ad: _, ranking } = self.kept.swap_remove(k);
            return Ok(ranking);
        }
        if self.kept.len() >= RANKINGS_LIMIT || request.ad.rank(0).is_none() {
            return Ok(Ranking::unknown(alloc));
        }
        Ranking::of_places(alloc, count)
    }

    /// Keeps what is known of the ranks by the expression of a request.
    pub(crate) fn keep(&mut self, request: &Request, ranking: Ranking) -> Result<(), OutOfMemory>
        ensures { (moment : ℕ) (ads : List Advert) → AreKnown moment ads self.old
            → AreRanks moment ads (rank_expr (ad_frames request.now.ad)) ranking.ranks.items
            → AreKnown moment ads self.new }
    {
        if ranking.ranks.is_empty() {
            return Ok(());
        }
        self.kept.push(Kept {
            ad: request.ad.share()?,
            ranking,
        })?;
        Ok(())
    }

    // Where a request stands whose rank has the expression of this one.
    fn place_of(&self, request: &Ad) -> Option<usize>
        ensures within { IfSome result (λ k. k < length self.now.kept.items) }
        ensures same { IfSome result (λ k. (kept : Kept) → slice_get self.now.kept.items k ≡ Some kept
            → rank_expr (ad_frames kept.ad) ≡ rank_expr (ad_frames request.now)) }
    {
        for k in 0..self.kept.len() {
            if has_same_rank(&self.kept[k].ad, request) {
                return Some(k);
            }
        }
        None
    }
}

// Whether the ranks of two requests have the same expression.
fn has_same_rank(a: &Ad, b: &Ad) -> bool
    ensures { IsTrue result → rank_expr (ad_frames a.now) ≡ rank_expr (ad_frames b.now) }
{
    match (a.rank(0), b.rank(0)) {
        (Some(j), Some(k)) => same_expr(a.expr(0, j), b.expr(0, k)),
        _ => false,
    }
}
