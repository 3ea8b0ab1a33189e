// The operands of the builder. A tree that doesn't take what an instruction gives it is only measured with it.
ghost use Rattle.std.specs.Prelude.{◌≡◌, [], ◌∷◌, ℕ, List, map, IfOk, IfSome, IsTrue, OnOk};
ghost use Rattle.ad_tree.specs.Inline.{Inline};
ghost use Rattle.ad_tree.specs.Tree.{tree};
ghost use Rattle.ad_builder.specs.Builds.{measure_of, HasAdded};
ghost use Rattle.ad_builder.specs.JoinedTrees.{TakesElement};
ghost use Rattle.ad_builder.specs.Machine.{top, below, with_element, with_definition};
ghost use Rattle.ad_builder.specs.Measures.{IsMeasure, AreMeasures};
ghost use Rattle.ad_builder.specs.declared.measure.Measure.{Measure};
ghost use Rattle.ad_builder.specs.declared.operand.Operand.{Operand};
ghost use Rattle.ad_builder.specs.declared.operand.Operand.TheVariants as kinds;

use crate::measure::Measure;
use crate::stack::Stack;
use ad_tree::Expr;
use pool_text::{Lit, OutOfMemory};

/// A tree, or an ad literal whose definitions are being made, with its frame and the frame in which it stands; each with
/// how high it is.
#[derive(Drop)]
pub enum Operand {
    Value(Measure, Expr),
    Open(Measure, u32, u32),
}

impl Operand {
    ghost use Rattle.ad_builder.specs.Builds.{slot};
    ghost use Rattle.ad_builder.specs.Laid.{value};
    ghost use Rattle.ad_tree.specs.Tree.{Tree};

    /// Measures the tree with an element more. Answers whether it is a list or a call, which takes it.
    fn add_element(&mut self, measure: Measure, element: Expr) -> Result<bool, OutOfMemory>
        ensures tree { IfOk result (λ is_added. IsTrue is_added → (t u : Tree) × (slot self.old ≡ value t) × (slot self.new ≡ value u)
            × TakesElement t (tree element) u) }
        ensures measure { OnOk result ((x y : Inline) → IsMeasure (measure_of self.old) x → IsMeasure measure y
            → IsMeasure (measure_of self.new) (with_element x y)) }
    {
        match self {
            Operand::Value(left, whole) => {
                *left = left.with_element(measure);
                lengthen(whole, element)
            }
            Operand::Open(left, _, _) => {
                *left = left.with_element(measure);
                drop(element);
                Ok(false)
            }
        }
    }

    /// Measures the tree with a definition more. Answers whether it is an ad literal that is open.
    fn measure_definition(&mut self, definition: Measure) -> bool
        ensures open { IsTrue result → (l r : Measure) × (n outer : ℕ) × (self.old ≡ kinds.Open l n outer) × (self.new ≡ kinds.Open r n outer) }
        ensures measure { (name : List ℕ) (x y : Inline) → IsMeasure (measure_of self.old) x → IsMeasure definition y
            → IsMeasure (measure_of self.new) (with_definition x name y) }
    {
        match self {
            Operand::Open(left, _, _) => {
                *left = left.with_definition(definition);
                true
            }
            Operand::Value(left, _) => {
                *left = left.with_definition(definition);
                false
            }
        }
    }

    /// Its measure.
    pub fn measure(&self) -> Measure
        ensures { result ≡ measure_of self.now }
    {
        match self {
            Operand::Value(measure, _) => *measure,
            Operand::Open(measure, _, _) => *measure,
        }
    }
}

/// What stands for a tree that is only measured.
pub fn unbuilt() -> Expr {
    Expr::Literal(Lit::Undefined)
}

/// Adds a tree to the last one. Answers whether that is a list or a call: any other is only measured with it.
#[inline(always)]
pub fn add_to_last(
    operands: &mut Stack<Operand>,
    measure: Measure,
    element: Expr,
) -> Result<bool, OutOfMemory>
    ensures tree { IfOk result (λ is_added. IsTrue is_added → HasAdded (tree element) operands.old operands.new) }
    ensures measure { OnOk result ((y : Inline) (st : List Inline) → AreMeasures (map measure_of operands.old) st → IsMeasure measure y
        → AreMeasures (map measure_of operands.new) (with_element (top st) y ∷ below st)) }
{
    match operands.last_mut() {
        Some(whole) => whole.add_element(measure, element),
        None => {
            drop(element);
            let measure = Measure::leaf().with_element(measure);
            operands.push(Operand::Value(measure, unbuilt()))?;
            Ok(false)
        }
    }
}

/// Measures the last tree with a definition more. Answers whether it is an ad literal that is open.
#[inline(always)]
pub fn measure_last(operands: &mut Stack<Operand>, definition: Measure) -> Result<bool, OutOfMemory>
    ensures open { IfOk result (λ is_open. IsTrue is_open → (l r : Measure) × (n outer : ℕ) × (rest : List Operand)
        × (operands.old ≡ kinds.Open l n outer ∷ rest) × (operands.new ≡ kinds.Open r n outer ∷ rest)) }
    ensures measure { OnOk result ((name : List ℕ) (y : Inline) (st : List Inline) → AreMeasures (map measure_of operands.old) st
        → IsMeasure definition y → AreMeasures (map measure_of operands.new) (with_definition (top st) name y ∷ below st)) }
{
    match operands.last_mut() {
        Some(last) => Ok(last.measure_definition(definition)),
        None => {
            let measure = Measure::leaf().with_definition(definition);
            operands.push(Operand::Value(measure, unbuilt()))?;
            Ok(false)
        }
    }
}

/// Whether an ad literal that is open is the only operand.
pub fn is_open_alone(mut operands: Stack<Operand>) -> bool
    ensures { IsTrue result → (m : Measure) × (n : ℕ) × (outer : ℕ) × (operands ≡ kinds.Open m n outer ∷ []) }
{
    match operands.pop() {
        Some(Operand::Open(_, _, _)) => operands.is_empty(),
        other => {
            drop(other);
            false
        }
    }
}

/// The tree that is the only operand.
pub fn sole_value(mut operands: Stack<Operand>) -> Option<Expr>
    ensures { IfSome result (λ expr. (m : Measure) × (operands ≡ kinds.Value m expr ∷ [])) }
{
    match operands.pop() {
        Some(Operand::Value(_, expr)) if operands.is_empty() => Some(expr),
        other => {
            drop(other);
            None
        }
    }
}

/// Adds a tree to a list or to a call. Answers whether it is one.
fn lengthen(whole: &mut Expr, element: Expr) -> Result<bool, OutOfMemory>
    ensures { IfOk result (λ is_added. IsTrue is_added → TakesElement (tree whole.old) (tree element) (tree whole.new)) }
{
    match whole {
        Expr::List(list) => list.push(element)?,
        Expr::Call(_, list) => list.push(element)?,
        _ => {
            drop(element);
            return Ok(false);
        }
    }
    Ok(true)
}
