// Tokens and lists of them.
use crate::bytes::{Class, behind, run_len};
use crate::decode::unescaped;
use crate::mark::Mark;
use pool_text::{OutOfMemory, Text};
use std::alloc::Global;
use std::marker::Model;

/// What a token is: a plain name, a reserved word, a name in single quotes, a string in double quotes, an integer, a decimal or
/// a symbol.
#[derive(Clone, Copy, PartialEq, Eq)]
pub enum TokenKind {
    Plain,
    Reserved,
    Quoted,
    Str,
    Int,
    Dec,
    Symbol,
}

/// A token of a source text: its bytes, and the places in the source, counted in bytes from 0, where they begin and
/// behind which they end.
#[derive(Clone, Copy)]
pub struct Token<'a> {
    pub kind: TokenKind,
    pub start: u32,
    pub end: u32,
    pub text: &'a [u8],
}

/// A token without its bytes, which the source holds, and with the mark that it is.
#[derive(Clone, Copy)]
pub(crate) struct Span {
    pub kind: TokenKind,
    pub mark: Option<Mark>,
    pub start: u32,
    pub end: u32,
}

/// The tokens of a source text, in order.
#[derive(Drop)]
pub struct Tokens<'a> {
    source: &'a [u8],
    spans: Vec<Span>,
    openings: usize,
}

impl<'a> Model for Tokens<'a> {
    ghost use Rattle.std.specs.Prelude.{◌≡◌, ◌≤◌, List, length, true};
    ghost use Rattle.ad_lexer.specs.Lexeme.{Lexeme};
    ghost use Rattle.ad_lexer.specs.Spans.{are_within, lexemes_of, openings_of, AreMarked};

    ghost Value = { List Lexeme };

    ghost view = { λ t. lexemes_of t.source.now t.spans.items };

    ghost invariant = { λ t. (are_within (length t.source.now) t.spans.items ≡ true) × AreMarked t.source.now t.spans.items × (openings_of t.spans.items ≤ t.openings) };
}

impl<'a> Tokens<'a> {
    ghost use Rattle.std.specs.Prelude.{◌≡◌, ◌<◌, ◌≤◌, ◌^◌, length, slice_get, IfOk, Some, true};
    ghost use Rattle.ad_lexer.specs.Content.{content};
    ghost use Rattle.ad_lexer.specs.Lexeme.{Lexeme, lexeme};
    ghost use Rattle.ad_lexer.specs.Marks.{marks_of, openings_in};
    ghost use Rattle.ad_lexer.specs.Quoted.{IsQuotation};
    ghost use Rattle.ad_lexer.specs.Spans.{are_within, lexemes_of, openings_of, AreMarked};

    // The tokens that stand in the source at these spans.
    pub(crate) fn of(source: &'a [u8], spans: Vec<Span>, openings: usize) -> Tokens<'a>
        requires within { are_within (length source.now) spans.items ≡ true }
        requires marked { AreMarked source.now spans.items }
        requires counted { openings_of spans.items ≤ openings }
        ensures { result ≡ lexemes_of source.now spans.items }
    {
        Tokens {
            source,
            spans,
            openings,
        }
    }

    /// No fewer than the tokens that open a construct: brackets of the three kinds, and the question marks of conditionals.
    #[inline]
    pub fn openings(&self) -> usize
        ensures { openings_in (marks_of self.now) ≤ result }
    {
        self.openings
    }

    /// How many tokens there are.
    #[inline]
    pub fn len(&self) -> usize
        ensures value { result ≡ length self.now }
        ensures few { result < 2 ^ 63 }
    {
        self.spans.len()
    }

    /// The mark that the token at place `i` is, counted from 0.
    #[inline(always)]
    pub fn mark(&self, i: usize) -> Option<Mark>
        requires { i < length self.now }
        ensures { slice_get (marks_of self.now) i ≡ Some result }
    {
        self.spans[i].mark
    }

    /// The token at place `i`, counted from 0.
    pub fn at(&self, i: usize) -> Token<'a>
        requires { i < length self.now }
        ensures { slice_get self.now i ≡ Some (lexeme result) }
    {
        let span = self.spans[i];
        Token {
            kind: span.kind,
            start: span.start,
            end: span.end,
            text: &self.source[span.start as usize..span.end as usize],
        }
    }

    /// The bytes of the token at place `i` as a text.
    #[inline(always)]
    pub fn text(&self, alloc: Global, i: usize) -> Result<Text, OutOfMemory>
        requires { i < length self.now }
        ensures { IfOk result (λ text. (l : Lexeme) → slice_get self.now i ≡ Some l → text ≡ l.text) }
    {
        let Span { start, end, .. } = self.spans[i];
        let len = (end - start) as usize;
        Text::from_front(alloc, &self.source[start as usize..], len)
    }

    /// What the letters between the quotes of the token at place `i` mean, escapes undone. Most stand for themselves: then the
    /// run of such letters ends where the token does.
    #[inline(always)]
    pub fn content(&self, alloc: Global, i: usize) -> Result<Text, OutOfMemory>
        requires place { i < length self.now }
        requires quotation { (l : Lexeme) → slice_get self.now i ≡ Some l → ∥ IsQuotation l.text ∥₁ }
        ensures { IfOk result (λ text. (l : Lexeme) → slice_get self.now i ≡ Some l → text ≡ content l.text) }
    {
        let token = self.at(i);
        let letters = behind(self.source, token.start as usize + 1);
        let len = token.text.len() - 2;
        if run_len(Class::Plain, letters) == len {
            Text::from_front(alloc, letters, len)
        } else {
            Text::from_vec(alloc, unescaped(alloc, token.text)?)
        }
    }
}
