//! Texts, numbers and the small types that every crate of the pool speaks of.
#![tactic(auto)]

mod decimal;
mod digest;
mod folding;
mod language;
mod laws;
mod lists;
mod memory;
mod number;
mod short_text;
mod spelling;
mod text;
mod words;

pub use decimal::{append_decimal, append_shortest_decimal};
pub use digest::name_digest;
pub use folding::{fold, order_folded, same_folded};
pub use language::{
    AdPlace, BinOp, Lit, Pos, UnOp, same_binary, same_place, same_position, same_unary,
};
pub use laws::{lines_at_a_cut, lines_hold_no_feed, lines_join_again, number_is_its_decimal_text};
pub use lists::{Items, Names, Slots};
pub use memory::OutOfMemory;
pub use number::{append_count, append_number, read_number};
pub use text::Text;
pub use words::{LONGEST_LINE, past_blanks, without_return, word_of, words_behind};
