//! Expressions as trees, and ads as tables of frames.
#![tactic(auto)]

mod ad;
mod alike;
mod attribute;
mod draft;
mod frame;
mod hasher;
mod laws;
mod literal;
mod name_key;
mod order;
mod phrase;
mod placing;
mod request;
mod table;
mod tree;

pub use ad::Ad;
pub use alike::{same_attributes, same_expr};
pub use draft::Draft;
pub use laws::{
    a_definition_stands_at_its_first_place, ad_is_spelled_level_by_level, ad_is_well_formed,
    draft_spells_the_settled_tree, each_ad_literal_is_one_frame, expressions_are_within_their_list,
    frames_of_a_phrase_stand_in_the_order_of_their_brackets, frames_spell_their_tree,
    frames_stand_in_the_order_of_their_brackets, scopes_are_equal, settling_ends_with_names_apart,
    spelled_trees_have_ads,
};
pub use literal::{copy_literal, same_literal};
pub use phrase::Phrase;
pub use request::{Port, Ports, Request};
pub use tree::{Expr, Exprs, Scope};
