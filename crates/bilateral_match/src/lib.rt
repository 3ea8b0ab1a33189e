//! What a request and the ads of a store make of each other: the ads that a query finds, and the best resource for a job.
#![tactic(auto)]

mod choosing;
mod docked_alike;
mod hit;
mod known;
mod laws;
mod looks;
mod member;
mod members;
mod querying;
mod scene;
mod settled;
mod shortlists;
mod weighing;

pub use choosing::{best, best_knowing};
pub use docked_alike::requests_that_dock_alike_are_matched_alike;
pub use hit::{Hit, Hits, Match};
pub use known::{Kept, Known, Ranking};
pub use laws::{
    a_settled_rank_is_the_same_for_all_requests, answers_are_all_matches_in_order,
    more_offers_leave_no_more_members, no_other_member_comes_before_the_best,
};
pub use looks::Looks;
pub use member::Member;
pub use querying::query;
pub use scene::Scene;
pub use shortlists::shortlist;
