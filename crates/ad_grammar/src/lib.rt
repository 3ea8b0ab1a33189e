//! The grammar of the ClassAd language: which words spell which tree, and the machine that has built the tree of words.
#![tactic(auto)]

mod grammar;
mod laws;
mod nesting;
mod operators;
mod phrase;
mod read;
mod reader;
mod stop;
mod word;

pub use ad_lexer::Mark;
pub use laws::{
    symbols_and_reserved_words_have_meanings, words_are_read_by_the_grammar,
    words_make_parsed_trees, words_spell_one_tree,
};
pub use read::{read_ad, read_expression};
pub use reader::Reader;
pub use stop::Stop;
