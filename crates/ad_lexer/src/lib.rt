//! Divides a ClassAd text into its tokens, or tells the first fault and its place.
#![tactic(auto)]

mod bytes;
mod decimals;
mod decode;
mod escape;
mod fault;
mod laws;
mod lexer;
mod mark;
mod next;
mod number;
mod quoted;
mod symbol;
mod token;

pub use decimals::decimal;
pub use decode::integer;
pub use fault::{LexFault, LexKind};
pub use laws::{
    decimal_fits, decimal_spells, integer_fits, millionths_spell, one_answer, one_content,
    one_kind, quoted_in_utf8, spelling_stands, tokens_are_slices, tokens_mean_texts,
};
pub use lexer::lex;
pub use mark::Mark;
pub use token::{Token, TokenKind, Tokens};
