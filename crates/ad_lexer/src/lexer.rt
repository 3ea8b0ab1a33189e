// Divides a text into its tokens.
ghost use Rattle.std.specs.Prelude.{◌≡◌, ◌<◌, ◌≤◌, ◌^◌, ℕ, List, length, Ok, Err, IsUtf8};
ghost use Rattle.ad_lexer.specs.declared.fault.LexKind.{LexKind};
ghost use Rattle.ad_lexer.specs.Lexeme.{Lexeme};
ghost use Rattle.ad_lexer.specs.Reading.{PassesBlank};
ghost use Rattle.ad_lexer.specs.Tokens as spec;

use crate::bytes::{behind, byte_at};
use crate::fault::{LexFault, LexKind};
use crate::next::{Marked, Step, next};
use crate::token::{Span, Tokens};
use std::alloc::Global;

/// How many bytes a token takes at the least in ordinary texts, with the blanks around it.
const BYTES_A_TOKEN: usize = 3;

/// The tokens of a text, in order, or its first fault from the left.
///
/// White space (space, tab, line feed, carriage return, form feed) and comments divide tokens. A comment is `//` up to
/// the end of the line or of the text, or `/*` up to the next `*/`. Each token is the longest that begins where it does.
pub fn lex(alloc: Global, text: &[u8]) -> Result<Tokens<'_>, LexFault>
    requires { length text.now < 2 ^ 32 }
    // The tokens of the text, or its fault, or want of memory.
    ensures answer { spec.Answers text.now result }
    // Where the text has tokens, they are the answer; and where it has a fault, that is.
    ensures tokens { (list : List Lexeme) → spec.Tokens text.now list → spec.IsOrMemory result (Ok list) }
    ensures fault { (kind : LexKind) (place : ℕ) → spec.Fault text.now kind place → spec.IsOrMemory result (Err (LexFault.At kind place)) }
{
    match simdutf8::compat::from_utf8(text) {
        Ok(_) => divide(alloc, text),
        Err(fault) => Err(fault_at(LexKind::Encoding, fault.valid_up_to())),
    }
}

/// The tokens of a text that is UTF-8, or its first fault from the left.
fn divide(alloc: Global, text: &[u8]) -> Result<Tokens<'_>, LexFault>
    requires utf8 { IsUtf8 text.now }
    requires room { length text.now < 2 ^ 32 }
    ensures { spec.Answers text.now result }
{
    let mut spans = Vec::with_capacity(alloc, text.len() / BYTES_A_TOKEN)?;
    let mut openings = 0;
    let mut at = 0;
    loop {
        let Marked { step, mark } = next(behind(text, at), &mut openings);
        match step {
            Step::End => return Ok(Tokens::of(text, spans, openings)),
            Step::Blank(len) => at = behind_blank(text, at + len),
            Step::Token(kind, len) => {
                let end = at + len;
                spans.push(Span {
                    kind,
                    mark,
                    start: at as u32,
                    end: end as u32,
                })?;
                at = behind_blank(text, end);
            }
            Step::Fault(kind, place) => return Err(fault_at(kind, at + place)),
        }
    }
}

/// The place itself, or the one behind it where a blank stands there: most tokens have one behind them, and most
/// lines begin with some.
fn behind_blank(text: &[u8], place: usize) -> usize
    requires { place ≤ length text.now }
    ensures passes { PassesBlank text.now place result }
    ensures within { result ≤ length text.now }
{
    if byte_at(text, place) == b' ' {
        place + 1
    } else {
        place
    }
}

/// A fault at a place of the text.
fn fault_at(kind: LexKind, place: usize) -> LexFault
    requires { place < 2 ^ 32 }
    ensures { result ≡ LexFault.At kind place }
{
    LexFault::At {
        kind,
        place: place as u32,
    }
}
