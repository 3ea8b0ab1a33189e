// The builder of ads and of expressions: it carries out instructions. Ad literals become frames of a draft, whose
// definitions are made there one after another. Names and strings move from the instructions into the ad.
//
// Where an instruction asks for a tree that isn't there, or that doesn't take what it is given, the trees are only measured
// from then on, and nothing can be finished. That none of those that the grammar gives does is tested, and not proved.
ghost use Rattle.std.specs.Prelude.{◌≡◌, ◌<◌, [], ◌∷◌, ◌++◌, Bool, length, map, min, true, false, List, IfOk, IfSome, OnOk};
ghost use Rattle.ad_tree.specs.Ad.{ad_frames};
ghost use Rattle.ad_tree.specs.Draft.{draft_frames};
ghost use Rattle.ad_tree.specs.Inline.{Inline, height, inner, no_defs, ad_of, phrase_of, phrase_tree};
ghost use Rattle.ad_tree.specs.Tree.{tree, trees, node, all, any, pack};
ghost use Rattle.ad_builder.specs.Machine.{top};
ghost use Rattle.ad_builder.specs.Measures.{IsMeasure, AreMeasures};
ghost use Rattle.ad_builder.specs.declared.instruction.Infix.TheVariants as infixes;
ghost use Rattle.ad_builder.specs.JoinedTrees.{joined_tree};
ghost use Rattle.ad_builder.specs.Counts.{tallest_measured};

use crate::instruction::{Infix, Instruction};
use crate::measure::{Kind, Measure};
use crate::operand::{Operand, add_to_last, is_open_alone, measure_last, sole_value, unbuilt};
use crate::stack::Stack;
use ad_tree::{Ad, Draft, Expr, Exprs, Phrase};
use pool_text::{Lit, OutOfMemory, Text, UnOp};
use std::alloc::Global;

/// An ad while its instructions are carried out: `parent` is the frame in which the next tree stands. Frames and
/// definitions are counted as they are spelled, those that are replaced included. While it is steady, no repeated name has
/// moved an ad literal, and the frames of the draft stand as those of its ad. Where not all is built, trees are only measured
/// and counted.
#[derive(Drop)]
pub struct Builder {
    alloc: Global,
    draft: Draft,
    operands: Stack<Operand>,
    parent: u32,
    frames: u32,
    definitions: u32,
    is_steady: bool,
    is_built: bool,
    ghost inside: { parent < length (draft_frames draft) },
}

impl Builder {
    ghost use Rattle.ad_builder.specs.declared.instruction.Instruction.TheVariants as instructions;
    ghost use Rattle.ad_builder.specs.Builds.{measure_of, HasPut, HasGiven, HasTaken, HasCounted, Holds, Carries, CarriesElement};
    ghost use Rattle.ad_builder.specs.Laid.{value};

    /// Nothing but an empty root, with this seed for the hashes of names.
    pub fn of_expression(alloc: Global, seed: u64) -> Builder
        ensures { Holds false result [] }
    {
        Builder {
            alloc,
            draft: Draft::with_seed(alloc, seed),
            operands: Stack::new(alloc),
            parent: 0,
            frames: 0,
            definitions: 0,
            is_steady: true,
            is_built: true,
        }
    }

    /// The root as an ad literal that is open, with room for so many definitions.
    pub fn of_ad(alloc: Global, seed: u64, room: usize) -> Result<Builder, OutOfMemory>
        ensures { IfOk result (λ builder. Holds true builder (inner no_defs ∷ [])) }
    {
        let mut draft = Draft::with_seed(alloc, seed);
        draft.reserve(0, room)?;
        let mut operands = Stack::new(alloc);
        operands.push(Operand::Open(Measure::ad(), 0, 0))?;
        Ok(Builder {
            alloc,
            draft,
            operands,
            parent: 0,
            frames: 1,
            definitions: 0,
            is_steady: true,
            is_built: true,
        })
    }

    /// Carries out one instruction of the parser on the trees that are built so far.
    #[inline(always)]
    pub fn carry_out(&mut self, instruction: Instruction) -> Result<(), OutOfMemory>
        ensures { Carries instruction self.old self.new result }
    {
        match instruction {
            Instruction::Literal(literal) => self.put(Measure::leaf(), Expr::Literal(literal)),
            Instruction::Name(scope, name) => self.put(Measure::leaf(), Expr::Name(scope, name)),
            Instruction::Unary(operator) => self.unary(operator),
            Instruction::Infix(operator) => self.infix(operator),
            Instruction::Choice => self.choice(),
            Instruction::Select(name) => self.select(name),
            Instruction::Subscript => self.subscript(),
            Instruction::List(room) => self.list(room),
            Instruction::Call(name, room) => self.call(name, room),
            Instruction::Element => self.element(),
            Instruction::Ad => self.open(),
            Instruction::Define(name) => self.define(name),
            Instruction::Close => self.close(),
        }
    }

    /// A tree more.
    #[inline(always)]
    fn put(&mut self, measure: Measure, expr: Expr) -> Result<(), OutOfMemory>
        ensures { OnOk result (HasPut (value (tree expr)) measure self.old self.new) }
    {
        self.operands.push(Operand::Value(measure, expr))
    }

    /// The last tree, which is taken, with its measure. Where none is there, or an ad literal that is open, it is only measured.
    #[inline(always)]
    fn value(&mut self) -> (Measure, Expr)
        ensures { HasGiven (tree result.1) result.0 self.old self.new }
    {
        match self.operands.pop() {
            Some(Operand::Value(measure, expr)) => (measure, expr),
            Some(Operand::Open(measure, _, _)) => {
                self.is_built = false;
                (measure, unbuilt())
            }
            None => {
                self.is_built = false;
                (Measure::leaf(), unbuilt())
            }
        }
    }

    /// The last tree in a box.
    #[inline(always)]
    fn boxed(&mut self) -> Result<(Measure, Box<Expr>), OutOfMemory>
        ensures { IfOk result (λ last. HasGiven (tree last.1.value) last.0 self.old self.new) }
    {
        let (measure, expr) = self.value();
        Ok((measure, boxed(self.alloc, expr)?))
    }

    fn unary(&mut self, operator: UnOp) -> Result<(), OutOfMemory>
        ensures { Carries (instructions.Unary operator) self.old self.new result }
    {
        let (measure, operand) = self.boxed()?;
        self.put(measure.over_one(), Expr::Unary(operator, operand))
    }

    fn infix(&mut self, operator: Infix) -> Result<(), OutOfMemory>
        ensures { Carries (instructions.Infix operator) self.old self.new result }
    {
        let (right, second) = self.value();
        let (left, first) = self.value();
        let expr = joined(self.alloc, operator, first, second)?;
        self.put(left.joined(operator, right), expr)
    }

    fn choice(&mut self) -> Result<(), OutOfMemory>
        ensures { Carries instructions.Choice self.old self.new result }
    {
        let (right, third) = self.boxed()?;
        let (middle, second) = self.boxed()?;
        let (left, first) = self.boxed()?;
        self.put(
            left.over_three(middle, right),
            Expr::Cond(first, second, third),
        )
    }

    fn select(&mut self, name: Text) -> Result<(), OutOfMemory>
        ensures { Carries (instructions.Select name) self.old self.new result }
    {
        let (measure, base) = self.boxed()?;
        self.put(measure.over_one(), Expr::Select(base, name))
    }

    fn subscript(&mut self) -> Result<(), OutOfMemory>
        ensures { Carries instructions.Subscript self.old self.new result }
    {
        let (right, place) = self.boxed()?;
        let (left, base) = self.boxed()?;
        self.put(left.over_two(right), Expr::Subscript(base, place))
    }

    /// An empty list with room for so many elements.
    fn list(&mut self, room: usize) -> Result<(), OutOfMemory>
        ensures { Carries (instructions.List room) self.old self.new result }
    {
        let elements = Exprs::with_capacity(self.alloc, room)?;
        self.put(Measure::leaf(), Expr::List(elements))
    }

    /// A call without arguments, with room for so many.
    fn call(&mut self, name: Text, room: usize) -> Result<(), OutOfMemory>
        ensures { Carries (instructions.Call name room) self.old self.new result }
    {
        match boxed_list(self.alloc, room) {
            Ok(arguments) => self.put(Measure::leaf(), Expr::Call(name, arguments)),
            Err(error) => {
                drop(name);
                Err(error)
            }
        }
    }

    /// Adds the last tree to the list or the call below it.
    fn element(&mut self) -> Result<(), OutOfMemory>
        ensures { Carries instructions.Element self.old self.new result }
    {
        let (measure, element) = self.value();
        self.add(measure, element)
    }

    /// Adds a tree to the list or the call that is the last.
    #[inline(always)]
    fn add(&mut self, measure: Measure, element: Expr) -> Result<(), OutOfMemory>
        ensures { OnOk result (HasTaken (tree element) measure self.old self.new) }
    {
        let is_added = add_to_last(&mut self.operands, measure, element)?;
        self.is_built &= is_added;
        Ok(())
    }

    /// Carries out an instruction, and adds the tree that it puts on the stack to the list or the call below. A leaf is added at
    /// once.
    #[inline(always)]
    pub fn carry_out_element(&mut self, instruction: Instruction) -> Result<(), OutOfMemory>
        ensures { CarriesElement instruction self.old self.new result }
    {
        match instruction {
            Instruction::Literal(literal) => self.add(Measure::leaf(), Expr::Literal(literal)),
            Instruction::Name(scope, name) => self.add(Measure::leaf(), Expr::Name(scope, name)),
            other => {
                self.carry_out(other)?;
                self.element()
            }
        }
    }

    /// Opens a frame for an ad literal.
    fn open(&mut self) -> Result<(), OutOfMemory>
        ensures { Carries instructions.Ad self.old self.new result }
    {
        let frame = self.draft.frame(self.parent)?;
        self.operands
            .push(Operand::Open(Measure::ad(), frame, self.parent))?;
        self.parent = frame;
        self.frames = self.frames.saturating_add(1);
        Ok(())
    }

    /// Defines a name as the last tree in the ad literal below it.
    fn define(&mut self, name: Text) -> Result<(), OutOfMemory>
        ensures { Carries (instructions.Define name) self.old self.new result }
    {
        let (right, value) = self.value();
        self.count_definition();
        let is_open = measure_last(&mut self.operands, right)?;
        if !is_open {
            drop(value);
            self.is_built = false;
            return Ok(());
        }
        let is_steady = self.draft.define_noting(self.parent, name, value)?;
        self.is_steady &= is_steady;
        Ok(())
    }

    /// Counts a definition in the last tree, where it is an ad literal.
    fn count_definition(&mut self)
        ensures { HasCounted self.old self.new }
    {
        if self.last_measure().kind == Kind::Ad {
            self.definitions = self.definitions.saturating_add(1);
        }
    }

    /// Ends the definitions of the ad literal that is the last operand. The root stays open, and a tree that isn't
    /// open stays as it is.
    fn close(&mut self) -> Result<(), OutOfMemory>
        ensures { Carries instructions.Close self.old self.new result }
    {
        match self.operands.pop() {
            Some(Operand::Open(measure, frame, outer)) if outer < self.parent => {
                self.parent = outer;
                self.put(measure, Expr::Frame(frame))
            }
            Some(Operand::Open(measure, frame, outer)) => {
                self.operands.push(Operand::Open(measure, frame, outer))
            }
            Some(Operand::Value(measure, expr)) => {
                self.operands.push(Operand::Value(measure, expr))
            }
            None => Ok(()),
        }
    }

    /// Where its memory comes from.
    pub fn alloc(&self) -> Global {
        self.alloc
    }

    /// How many ad literals the trees have.
    pub fn frames(&self) -> u32
        ensures { result ≡ self.now.frames }
    {
        self.frames
    }

    /// How many definitions they have.
    pub fn definitions(&self) -> u32
        ensures { result ≡ self.now.definitions }
    {
        self.definitions
    }

    /// How high the last tree is.
    #[inline(always)]
    pub fn last_height(&self) -> u8
        ensures { (is_ad : Bool) (st : List Inline) → Holds is_ad self.now st → result ≡ min tallest_measured (height (top st)) }
    {
        self.last_measure().height
    }

    /// The measure of the last tree.
    #[inline(always)]
    fn last_measure(&self) -> Measure
        ensures { (st : List Inline) → AreMeasures (map measure_of self.now.operands) st → IsMeasure result (top st) }
    {
        match self.operands.last() {
            Some(last) => last.measure(),
            None => Measure::leaf(),
        }
    }

    /// The ad of the root, where all is built and it is the only operand. The frames of a steady draft are those of its ad
    /// already.
    pub fn finish_ad(self) -> Option<Result<Ad, OutOfMemory>>
        requires { (st : List Inline) × Holds true self st }
        ensures { (st : List Inline) → Holds true self st → IfSome result (λ made. IfOk made (λ ad. ad_frames ad ≡ ad_of (top st))) }
    {
        let Builder {
            draft,
            operands,
            is_steady,
            is_built,
            ..
        } = self;
        if !is_open_alone(operands) || !is_built {
            drop(draft);
            return None;
        }
        if is_steady {
            Some(draft.into_ad())
        } else {
            Some(draft.finish())
        }
    }

    /// The only operand as an expression that stands alone, where all is built.
    pub fn finish_phrase(self) -> Option<Result<Phrase, OutOfMemory>>
        requires { (st : List Inline) × Holds false self st }
        ensures { (st : List Inline) → Holds false self st → IfSome result (λ made. IfOk made (λ phrase.
            (ad_frames phrase.ad ≡ phrase_of (top st)) × (tree phrase.expr ≡ phrase_tree (top st)))) }
    {
        let Builder {
            draft,
            operands,
            is_steady,
            is_built,
            ..
        } = self;
        let Some(expr) = sole_value(operands) else {
            drop(draft);
            return None;
        };
        if !is_built {
            drop(expr);
            drop(draft);
            return None;
        }
        if is_steady {
            Some(draft.into_phrase(expr))
        } else {
            Some(draft.finish_phrase(expr))
        }
    }
}

/// Two operands joined. A chain of the operator's own takes the second as one operand more.
fn joined(alloc: Global, operator: Infix, first: Expr, second: Expr) -> Result<Expr, OutOfMemory>
    ensures { IfOk result (λ expr. tree expr ≡ joined_tree operator (tree first) (tree second)) }
{
    match operator {
        Infix::And => Ok(Expr::And(conjuncts(alloc, first, second)?)),
        Infix::Or => Ok(Expr::Or(disjuncts(alloc, first, second)?)),
        Infix::Binary(operator) => {
            let (first, second) = boxed_pair(alloc, first, second)?;
            Ok(Expr::Binary(operator, first, second))
        }
    }
}

fn boxed_pair(
    alloc: Global,
    first: Expr,
    second: Expr,
) -> Result<(Box<Expr>, Box<Expr>), OutOfMemory>
    ensures first { IfOk result (λ both. both.0.value ≡ first) }
    ensures second { IfOk result (λ both. both.1.value ≡ second) }
{
    match boxed(alloc, second) {
        Ok(second) => Ok((boxed(alloc, first)?, second)),
        Err(error) => {
            drop(first);
            Err(error)
        }
    }
}

fn boxed(alloc: Global, expr: Expr) -> Result<Box<Expr>, OutOfMemory>
    ensures { IfOk result (λ made. made.value ≡ expr) }
{
    Ok(Box::new(alloc, expr)?)
}

/// The empty list in a box, with room for so many expressions.
fn boxed_list(alloc: Global, room: usize) -> Result<Box<Exprs>, OutOfMemory>
    ensures { IfOk result (λ made. trees made.value ≡ []) }
{
    let list = Exprs::with_capacity(alloc, room)?;
    Ok(Box::new(alloc, list)?)
}

fn conjuncts(alloc: Global, first: Expr, second: Expr) -> Result<Exprs, OutOfMemory>
    ensures { IfOk result (λ list. node all (pack (trees list)) ≡ joined_tree infixes.And (tree first) (tree second)) }
{
    match first {
        Expr::And(list) => with_last(list, second),
        other => pair(alloc, other, second),
    }
}

fn disjuncts(alloc: Global, first: Expr, second: Expr) -> Result<Exprs, OutOfMemory>
    ensures { IfOk result (λ list. node any (pack (trees list)) ≡ joined_tree infixes.Or (tree first) (tree second)) }
{
    match first {
        Expr::Or(list) => with_last(list, second),
        other => pair(alloc, other, second),
    }
}

fn pair(alloc: Global, first: Expr, second: Expr) -> Result<Exprs, OutOfMemory>
    ensures { IfOk result (λ list. trees list ≡ tree first ∷ tree second ∷ []) }
{
    match one(alloc, first) {
        Ok(list) => with_last(list, second),
        Err(error) => {
            drop(second);
            Err(error)
        }
    }
}

/// A list of one tree, with room for another.
fn one(alloc: Global, first: Expr) -> Result<Exprs, OutOfMemory>
    ensures { IfOk result (λ list. trees list ≡ tree first ∷ []) }
{
    match Exprs::with_capacity(alloc, 2) {
        Ok(list) => with_last(list, first),
        Err(error) => {
            drop(first);
            Err(error)
        }
    }
}

/// The same with one tree more.
fn with_last(mut list: Exprs, last: Expr) -> Result<Exprs, OutOfMemory>
    ensures { IfOk result (λ longer. trees longer ≡ trees list ++ tree last ∷ []) }
{
    list.push(last)?;
    Ok(list)
}
