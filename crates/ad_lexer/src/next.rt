// What stands at the front of a text.
ghost use Rattle.std.specs.Prelude.{◌≡◌, ◌+◌, ◌<◌, ◌≤◌, ◌^◌, length, slice_index, IfSome, Some, None};
ghost use Rattle.std.specs.List.{prefix_len};
ghost use Rattle.ad_lexer.specs.Blanks.{is_line_byte};
ghost use Rattle.ad_lexer.specs.Marks.{opening};
ghost use Rattle.ad_lexer.specs.Reading as spec;
ghost use Rattle.ad_lexer.specs.Words as words;
ghost use Rattle.ad_lexer.specs.declared.next.Step.TheVariants as steps;
ghost use Rattle.ad_lexer.specs.declared.token.TokenKind.TheVariants.{Symbol};

use crate::bytes::{Class, behind, byte_at, front, is_in, run_len};
use crate::fault::LexKind;
use crate::mark::{Mark, mark_of_reserved, opening};
use crate::number::number;
use crate::quoted::{name, string};
use crate::symbol::{alone, symbol};
use crate::token::TokenKind;
use pool_text::BinOp;

/// The end of the text, white space or a comment with its length, a token with its length, or a fault with its place.
#[derive(Clone, Copy)]
pub enum Step {
    End,
    Blank(usize),
    Token(TokenKind, usize),
    Fault(LexKind, usize),
}

/// What the first byte of a text begins.
#[derive(Clone, Copy)]
pub enum Begin {
    Space,
    Word,
    Number,
    Name,
    String,
    Slash,
    Symbol,
}

/// A step, with the mark that its token is.
#[derive(Clone, Copy)]
pub struct Marked {
    pub step: Step,
    pub mark: Option<Mark>,
}

/// What a text begins with whose first byte is this.
#[tactic(auto, unfolding(crate::specs::Reading::begin_of))]
fn begin_of(byte: u8) -> Begin
    ensures { result ≡ spec.begin_of byte }
{
    match byte {
        b' ' => Begin::Space,
        b'\'' => Begin::Name,
        b'"' => Begin::String,
        b'/' => Begin::Slash,
        _ if is_in(Class::Word, byte) => {
            if byte.is_ascii_digit() {
                Begin::Number
            } else {
                Begin::Word
            }
        }
        _ if is_in(Class::Space, byte) => Begin::Space,
        _ => Begin::Symbol,
    }
}

/// What stands at the front of a text: an item of it, or its fault. A mark that opens a construct is counted, in the one arm that
/// reads such marks, so that others cost nothing.
#[tactic(auto, unfolding(crate::specs::Reading::next))]
pub fn next(text: &[u8], openings: &mut usize) -> Marked
    requires room { length text.now < 2 ^ 32 }
    requires few { openings.old < 2 ^ 32 }
    ensures value { result.step ≡ spec.next text.now }
    ensures within { spec.IsWithin (length text.now) result.step }
    ensures marked { spec.IsMarked text.now result.step result.mark }
    ensures counted { openings.old + opening result.mark ≤ openings.new }
    ensures most { openings.new ≤ openings.old + 1 }
{
    let [first, ..] = text else {
        return unmarked(Step::End);
    };
    if let Some(mark) = alone(*first) {
        *openings += opening(mark);
        return symbol_of(mark, 1);
    }
    match begin_of(*first) {
        Begin::Space => unmarked(Step::Blank(1)),
        Begin::Word => word(text),
        Begin::Number => unmarked(number(text)),
        Begin::Name => unmarked(name(text)),
        Begin::String => unmarked(string(text)),
        Begin::Slash => slash(text),
        Begin::Symbol => symbol(text),
    }
}

/// A step whose token has no mark.
pub fn unmarked(step: Step) -> Marked
    ensures step { result.step ≡ step }
    ensures mark { result.mark ≡ None }
{
    Marked { step, mark: None }
}

/// A symbol.
pub fn symbol_of(mark: Mark, len: usize) -> Marked
    ensures step { result.step ≡ steps.Token Symbol len }
    ensures mark { result.mark ≡ Some mark }
{
    Marked {
        step: Step::Token(TokenKind::Symbol, len),
        mark: Some(mark),
    }
}

/// Whether a word is one of the six that are no names, in capital or small letters.
fn is_reserved(word: &[u8]) -> bool
    ensures { result ≡ words.is_reserved word.now }
{
    word.eq_ignore_ascii_case(b"true")
        || word.eq_ignore_ascii_case(b"false")
        || word.eq_ignore_ascii_case(b"undefined")
        || word.eq_ignore_ascii_case(b"error")
        || word.eq_ignore_ascii_case(b"is")
        || word.eq_ignore_ascii_case(b"isnt")
}

/// The word that the text begins with.
fn word(text: &[u8]) -> Marked
    requires some { 0 < length text.now }
    requires begins { spec.begin_of (slice_index text.now 0) ≡ Begin.Word }
    ensures value { result.step ≡ spec.word text.now }
    ensures within { spec.IsWithin (length text.now) result.step }
    ensures marked { spec.IsMarked text.now result.step result.mark }
    ensures opens { opening result.mark ≡ 0 }
{
    let len = run_len(Class::Word, text);
    let bytes = front(text, len);
    if is_reserved(bytes) {
        Marked {
            step: Step::Token(TokenKind::Reserved, len),
            mark: mark_of_reserved(bytes),
        }
    } else {
        unmarked(Step::Token(TokenKind::Plain, len))
    }
}

/// What a slash at the front begins: a comment, or the operator.
#[tactic(auto, unfolding(crate::specs::Reading::slash))]
fn slash(text: &[u8]) -> Marked
    requires some { 0 < length text.now }
    requires room { length text.now < 2 ^ 32 }
    requires begins { slice_index text.now 0 ≡ 47 }
    ensures value { result.step ≡ spec.slash text.now }
    ensures within { spec.IsWithin (length text.now) result.step }
    ensures marked { spec.IsMarked text.now result.step result.mark }
    ensures opens { opening result.mark ≡ 0 }
{
    match byte_at(text, 1) {
        b'/' => unmarked(Step::Blank(2 + line_len(behind(text, 2)))),
        b'*' => match comment_len(behind(text, 2)) {
            Some(len) => unmarked(Step::Blank(2 + len)),
            None => unmarked(Step::Fault(LexKind::CommentEnd, 0)),
        },
        _ => symbol_of(Mark::Binary(BinOp::Div), 1),
    }
}

/// How many bytes stand before the end of the line. It stays out of the loop over a text, as few texts have comments.
#[inline(never)]
fn line_len(text: &[u8]) -> usize
    ensures value { result ≡ prefix_len is_line_byte text.now }
    ensures within { result ≤ length text.now }
{
    run_len(Class::Line, text)
}

/// The length up to and with the first `*/`. It stays out of the loop over a text, as few texts have such comments.
#[inline(never)]
fn comment_len(text: &[u8]) -> Option<usize>
    requires { length text.now < 2 ^ 32 }
    ensures value { result ≡ spec.comment_len 0 text.now }
    ensures within { IfSome result (λ len. len ≤ length text.now) }
{
    let mut len = 0;
    let mut rest = text;
    while let [byte, more @ ..] = rest {
        if *byte == b'*' && byte_at(more, 0) == b'/' {
            return Some(len + 2);
        }
        len += 1;
        rest = more;
    }
    None
}
