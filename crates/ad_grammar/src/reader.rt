// The parser's place in the words of a text.
ghost use Rattle.std.specs.Prelude.{◌≡◌, ◌≤◌, length};
ghost use Rattle.ad_grammar.specs.Meaning.{AreSpelled};

use crate::nesting::{elements_ahead, room_within};
use crate::operators::{ends, extends, infix_of, prefix_of};
use crate::stop::Stop;
use crate::word::literal;
use ad_builder::{Infix, Instruction};
use ad_lexer::{Mark, Token, TokenKind, Tokens};
use ad_tree::Scope;
use pool_text::{Lit, OutOfMemory, Text, UnOp};
use std::alloc::Global;

/// No ad with more definitions is within the limits of a parse.
const MOST_ROOM: usize = 1_024;

/// The words of a text, from a place on. What a token means is made when it is taken, and most names need nothing made; the
/// token itself tells which mark it is, since the rules look at the next one many times.
#[derive(Drop)]
pub struct Reader<'a> {
    tokens: Tokens<'a>,
    at: usize,
    definitions: usize,
    ghost spelled: { ∥ AreSpelled tokens ∥₁ },
    ghost within: { at ≤ length tokens },
}

impl<'a> Reader<'a> {
    ghost use Rattle.std.specs.Prelude.{◌<◌, ◌∷◌, ◌^◌, ℕ, List, drop, is_some, slice_get, [], Some, None, Ok, Err, IfSome, true, false};
    ghost use Rattle.std.specs.Borrow.{Bor};
    ghost use Rattle.std.specs.Bool.{Decides};
    ghost use Rattle.ad_grammar.specs.Levels.{precedence_at};
    ghost use Rattle.ad_lexer.specs.Lexeme.{lexeme};
    ghost use Rattle.ad_lexer.specs.Spelling.{Spells};
    ghost use Rattle.ad_grammar.specs.Nesting.{nests_too_deep};
    ghost use Rattle.ad_grammar.specs.Rules.{name_at, infix_at};
    ghost use Rattle.ad_grammar.specs.Steps.{left, prefix_at, put_at, Takes, Gives, Finds, Continues};
    ghost use Rattle.ad_grammar.specs.HeldMarks.{front_mark, ends_at, extends_at, unmarked};
    ghost use Rattle.ad_grammar.specs.Words.{Word as MeantWord, plain, quoted, constant, mark as mark_word, word, words};
    ghost use Rattle.pool_text.specs.declared.language.Lit.{Lit as MeantLit};
    ghost use Rattle.ad_lexer.specs.declared.mark.Mark.TheVariants.{Dot, OpenBracket};
    ghost use Rattle.ad_grammar.specs.declared.stop.Stop.{Stop};
    ghost use Rattle.ad_builder.specs.declared.instruction.Instruction.{Instruction as Leaf};

    /// The place in front of the words of these tokens. `None` exactly where after some word more than 130 brackets and
    /// question marks are open.
    pub fn new(tokens: Tokens<'a>) -> Option<Reader<'a>>
        requires { AreSpelled tokens }
        ensures some { IfSome result (λ reader. (left reader ≡ words tokens.entry) × (nests_too_deep (words tokens.entry) ≡ false)) }
        ensures none { result ≡ None → nests_too_deep (words tokens.entry) ≡ true }
    {
        let definitions = room_within(&tokens)?;
        Some(Reader {
            tokens,
            at: 0,
            definitions,
        })
    }

    /// How many words are left.
    pub(crate) fn count(&self) -> usize
        ensures value { result ≡ length (left self.now) }
        ensures few { result < 2 ^ 63 }
    {
        self.tokens.len() - self.at
    }

    /// The token that stands next, where it is no mark.
    #[inline(always)]
    fn unmarked(&self) -> Option<Token<'a>>
        ensures some { IfSome result (λ token. left self.now ≡ word (lexeme token) ∷ drop 1 (left self.now)) }
        ensures is { IfSome result (λ token. unmarked (word (lexeme token)) ≡ word (lexeme token)) }
        ensures spelled { IfSome result (λ token. ∥ Spells token.kind token.text.now ∥₁) }
        ensures stands { IfSome result (λ token. slice_get self.now.tokens self.now.at ≡ Some (lexeme token)) }
        ensures none { result ≡ None → front_mark (left self.now) ≡ None → left self.now ≡ [] }
    {
        if self.at >= self.tokens.len() {
            return None;
        }
        match self.tokens.mark(self.at) {
            Some(_) => None,
            None => Some(self.tokens.at(self.at)),
        }
    }

    /// Takes a plain name, where one stands next.
    #[inline(always)]
    pub(crate) fn plain(&mut self, alloc: Global) -> Result<Option<Text>, OutOfMemory>
        ensures some { (text : List ℕ) → result ≡ Ok (Some text) → left self.old ≡ plain text ∷ left self.new }
        ensures kept { result ≡ Ok None → left self.new ≡ left self.old }
        ensures other { result ≡ Ok None → (text : List ℕ) (rest : List MeantWord) → left self.old ≡ plain text ∷ rest → ⊥ }
    {
        if self.at >= self.tokens.len() {
            return Ok(None);
        }
        let token = self.tokens.at(self.at);
        match token.kind {
            TokenKind::Plain => {
                let name = self.tokens.text(alloc, self.at)?;
                self.skip();
                Ok(Some(name))
            }
            _ => Ok(None),
        }
    }

    /// Takes a literal, where one stands next.
    #[inline(always)]
    pub(crate) fn literal(&mut self, alloc: Global) -> Result<Option<Lit>, OutOfMemory>
        ensures some { (lit : MeantLit) → result ≡ Ok (Some lit) → left self.old ≡ constant lit ∷ left self.new }
        ensures kept { result ≡ Ok None → left self.new ≡ left self.old }
        ensures other { result ≡ Ok None → (lit : MeantLit) (rest : List MeantWord) → left self.old ≡ constant lit ∷ rest → ⊥ }
    {
        let Some(token) = self.unmarked() else {
            return Ok(None);
        };
        match token.kind {
            TokenKind::Str => {
                let text = self.tokens.content(alloc, self.at)?;
                self.skip();
                Ok(Some(Lit::Str(text)))
            }
            _ => match literal(&token) {
                Some(literal) => {
                    self.skip();
                    Ok(Some(literal))
                }
                None => Ok(None),
            },
        }
    }

    /// Takes a plain name or a literal, where one stands next, and answers what puts it on a stack.
    #[inline(always)]
    pub(crate) fn leaf(&mut self, alloc: Global) -> Result<Option<Instruction>, OutOfMemory>
        ensures some { (i : Leaf) → result ≡ Ok (Some i) → put_at (left self.old) ≡ Some (i, left self.new) }
        ensures kept { result ≡ Ok None → left self.new ≡ left self.old }
    {
        if let Some(name) = self.plain(alloc)? {
            return Ok(Some(Instruction::Name(Scope::Bare, name)));
        }
        match self.literal(alloc)? {
            Some(literal) => Ok(Some(Instruction::Literal(literal))),
            None => Ok(None),
        }
    }

    /// Takes a quoted name, where one stands next.
    #[inline(never)]
    pub(crate) fn quoted(&mut self, alloc: Global) -> Result<Option<Text>, OutOfMemory>
        ensures some { (text : List ℕ) → result ≡ Ok (Some text) → left self.old ≡ quoted text ∷ left self.new }
        ensures other { result ≡ Ok None → (text : List ℕ) (rest : List MeantWord) → left self.old ≡ quoted text ∷ rest → ⊥ }
    {
        let Some(token) = self.unmarked() else {
            return Ok(None);
        };
        match token.kind {
            TokenKind::Quoted => {
                let name = self.tokens.content(alloc, self.at)?;
                self.skip();
                Ok(Some(name))
            }
            _ => Ok(None),
        }
    }

    /// Whether a mark stands behind the next word with which no expression goes on.
    #[inline(always)]
    pub(crate) fn ends_behind_next(&self) -> bool
        ensures { result ≡ ends_at (drop 1 (left self.now)) }
    {
        let len = self.tokens.len();
        let place = self.at + 1;
        if place < len {
            ends(self.tokens.mark(place))
        } else {
            false
        }
    }

    /// Whether a mark stands behind the next word with which that word goes on.
    #[inline(always)]
    pub(crate) fn extends_behind_next(&self) -> bool
        ensures { result ≡ extends_at (drop 1 (left self.now)) }
    {
        let len = self.tokens.len();
        let place = self.at + 1;
        if place < len {
            extends(self.tokens.mark(place))
        } else {
            false
        }
    }

    /// The next word, where it is a mark.
    pub(crate) fn mark(&self) -> Option<Mark>
        ensures { result ≡ front_mark (left self.now) }
    {
        if self.at < self.tokens.len() {
            self.tokens.mark(self.at)
        } else {
            None
        }
    }

    /// Takes a mark, where one stands next.
    pub(crate) fn take_mark(&mut self) -> Option<Mark>
        ensures some { (m : Mark) → result ≡ Some m → left self.old ≡ mark_word m ∷ left self.new }
        ensures none { result ≡ None → front_mark (left self.new) ≡ None }
        ensures kept { result ≡ None → left self.new ≡ left self.old }
    {
        let mark = self.mark()?;
        self.skip();
        Some(mark)
    }

    fn sees(&self, mark: Mark) -> bool
        ensures { Decides result (front_mark (left self.now) ≡ Some mark) }
    {
        match self.mark() {
            Some(front) => front == mark,
            None => false,
        }
    }

    /// Takes the mark, where it stands next.
    pub(crate) fn takes(&mut self, mark: Mark) -> bool
        ensures { Takes mark (left self.old) (left self.new) result }
    {
        if !self.sees(mark) {
            return false;
        }
        self.skip();
        true
    }

    /// Whether a selection or a subscript stands next.
    #[inline(always)]
    pub(crate) fn has_suffix(&self) -> bool
        ensures dot { result ≡ false → (rest : List MeantWord) → left self.now ≡ mark_word Dot ∷ rest → ⊥ }
        ensures bracket { result ≡ false → (rest : List MeantWord) → left self.now ≡ mark_word OpenBracket ∷ rest → ⊥ }
    {
        self.sees(Mark::Dot) || self.sees(Mark::OpenBracket)
    }

    fn skip(&mut self)
        ensures { left self.new ≡ drop 1 (left self.old) }
    {
        if self.at < self.tokens.len() {
            self.at += 1;
        }
    }

    /// Takes the mark, which is to stand next.
    pub(crate) fn expect(&mut self, mark: Mark) -> Result<(), Stop>
        ensures ok { (done : Unit {0}) → result ≡ Ok done → left self.old ≡ mark_word mark ∷ left self.new }
        ensures none { (stop : Stop) → result ≡ Err stop → (rest : List MeantWord) → left self.old ≡ mark_word mark ∷ rest → ⊥ }
    {
        if self.takes(mark) {
            Ok(())
        } else {
            Err(Stop::Grammar)
        }
    }

    /// Takes a name.
    #[inline(always)]
    pub(crate) fn name(&mut self, alloc: Global) -> Result<Text, Stop>
        ensures { Gives (λ (t : List ℕ). t) (name_at (left self.old)) result (left self.new) }
    {
        if let Some(name) = self.plain(alloc)? {
            return Ok(name);
        }
        match self.quoted(alloc)? {
            Some(text) => Ok(text),
            None => Err(Stop::Grammar),
        }
    }

    /// Takes the operator between operands that stands next, where its precedence is above `tighter` and at most `last`. Answers
    /// the precedence too.
    pub(crate) fn operator(&mut self, tighter: usize, last: usize) -> Option<(usize, Infix)>
        ensures taken { (n : ℕ) (op : Infix) → result ≡ Some (n, op) → infix_at n (left self.old) ≡ Some (op, left self.new) }
        ensures within { IfSome result (λ found. (tighter < found.0) × (found.0 ≤ last)) }
        ensures none { result ≡ None → (n : ℕ) → precedence_at (left self.old) ≡ Some n → tighter < n → n ≤ last → ⊥ }
        ensures kept { result ≡ None → left self.new ≡ left self.old }
    {
        let (precedence, operator) = infix_of(self.mark()?)?;
        if precedence <= tighter || last < precedence {
            return None;
        }
        self.skip();
        Some((precedence, operator))
    }

    /// Whether an operator before an operand stands next.
    #[inline(always)]
    pub(crate) fn has_prefix(&self) -> bool
        ensures { result ≡ is_some (prefix_at (left self.now)) }
    {
        match self.mark() {
            Some(mark) => prefix_of(mark).is_some(),
            None => false,
        }
    }

    /// Takes an operator before an operand.
    pub(crate) fn prefix(&mut self) -> Option<UnOp>
        ensures { Finds (λ (op : UnOp). op) (prefix_at (left self.old)) result (left self.old) (left self.new) }
    {
        let mark = self.mark()?;
        let op = prefix_of(mark)?;
        self.skip();
        Some(op)
    }

    /// Whether another definition stands behind one, with the marks between or behind them taken.
    pub(crate) fn goes_on(&mut self) -> Result<bool, Stop>
        ensures { Continues (left self.old) (left self.new) result }
    {
        if self.takes(Mark::CloseBracket) {
            return Ok(false);
        }
        self.expect(Mark::Semicolon)?;
        Ok(!self.takes(Mark::CloseBracket))
    }

    /// How many elements stand before the closing mark of what was opened last, so far as the next words tell.
    pub(crate) fn elements_ahead(&self) -> usize {
        elements_ahead(&self.tokens, self.at)
    }

    /// How many definitions an ad may have, so that there is room for them at once.
    pub(crate) fn room(&self) -> usize {
        self.definitions.min(MOST_ROOM)
    }
}
