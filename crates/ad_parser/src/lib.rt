//! Ads and expressions from ClassAd text: exactly those of the grammar, within the limits.
#![tactic(auto)]

mod fault;
mod laws;
mod parse;

pub use fault::ParseFault;
pub use laws::{
    parsed_ads_are_kept, parsed_phrases_are_kept, texts_have_one_answer, texts_have_one_outcome,
    texts_spell_parsed_trees,
};
pub use parse::{parse_ad, parse_ad_seeded, parse_expr, parse_expr_seeded};
