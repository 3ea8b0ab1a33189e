// The trees of expressions, which contracts see through the plain trees of `specs/Tree.antt`.
use pool_text::{BinOp, Lit, OutOfMemory, Text, UnOp};
use std::alloc::Global;

/// Where the name of a reference is looked up: `Bare` by the rules of nesting, `My` in the root of the ad in
/// which the reference stands (`MY.x`, `self.x` and `.x`), `Target` in the other ad of a match (`TARGET.x` and `other.x`).
#[derive(Clone, Copy, PartialEq, Eq)]
pub enum Scope {
    Bare,
    My,
    Target,
}

/// An expression of the ClassAd language (ClassAd Language Reference Manual 2.4, expressions).
/// An ad literal within it is a `Frame`: the number of a frame of the ad in which the expression stands.
/// In every tree that a parse gives, `And` and `Or` have at least two elements, and the first isn't of the same kind.
#[cycle(tree)]
#[derive(Drop)]
pub enum Expr {
    Literal(Lit),
    Name(Scope, Text),
    Unary(UnOp, Box<Expr>),
    Binary(BinOp, Box<Expr>, Box<Expr>),
    And(Exprs),
    Or(Exprs),
    /// `condition ? first : second`
    Cond(Box<Expr>, Box<Expr>, Box<Expr>),
    /// `base.name`
    Select(Box<Expr>, Text),
    /// `base[place]`
    Subscript(Box<Expr>, Box<Expr>),
    /// `name(first, second)`. The list is in a box, as it would make every expression larger.
    Call(Text, Box<Exprs>),
    List(Exprs),
    Frame(u32),
}

/// A list of expressions, which contracts see as the list of their plain trees.
#[cycle(tree)]
#[derive(Drop)]
pub struct Exprs {
    items: Vec<Expr>,
}

impl Exprs {
    ghost use Rattle.std.specs.Prelude.{◌≡◌, ◌++◌, ◌∷◌, ◌<◌, [], length, slice_get, Some, IfOk, OnOk, OnErr};
    ghost use Rattle.ad_tree.specs.Tree.{tree, trees};

    /// The empty list, which takes no memory yet.
    pub fn new(alloc: Global) -> Exprs
        ensures { trees result ≡ [] }
    {
        Exprs {
            items: Vec::new(alloc),
        }
    }

    /// The empty list, with room for so many expressions.
    pub fn with_capacity(alloc: Global, room: usize) -> Result<Exprs, OutOfMemory>
        ensures { IfOk result (λ list. trees list ≡ []) }
    {
        Ok(Exprs {
            items: Vec::with_capacity(alloc, room)?,
        })
    }

    /// Adds an expression at the end.
    #[inline(always)]
    pub fn push(&mut self, item: Expr) -> Result<(), OutOfMemory>
        ensures ok { OnOk result (trees self.new ≡ trees self.old ++ tree item ∷ []) }
        ensures err { OnErr result (trees self.new ≡ trees self.old) }
    {
        if self.items.len() < self.items.capacity() {
            self.items.push_reserved(item);
            return Ok(());
        }
        self.push_growing(item)
    }

    // Most lists are made with room for all that they take, so that what makes room stands apart.
    #[cold]
    #[inline(never)]
    fn push_growing(&mut self, item: Expr) -> Result<(), OutOfMemory>
        ensures ok { OnOk result (trees self.new ≡ trees self.old ++ tree item ∷ []) }
        ensures err { OnErr result (trees self.new ≡ trees self.old) }
    {
        self.items.push(item)?;
        Ok(())
    }

    /// How many expressions there are.
    pub fn len(&self) -> usize
        ensures { result ≡ length (trees self.now) }
    {
        self.items.len()
    }

    /// The expression at place `i`, counted from 0.
    pub fn at(&self, i: usize) -> &Expr
        requires { i < length (trees self.now) }
        ensures { slice_get (trees self.now) i ≡ Some (tree result.now) }
    {
        &self.items[i]
    }
}
