// What the machine does with the trees on its stack.
ghost use Rattle.std.specs.Prelude.{◌≡◌};
ghost use Rattle.ad_builder.specs.Leaves.{is_leaf};

use ad_tree::Scope;
use pool_text::{BinOp, Lit, Text, UnOp};

/// An operator between two operands. `&&` and `||` make chains: `a && b && c` is one node.
#[derive(Clone, Copy)]
pub enum Infix {
    And,
    Or,
    Binary(BinOp),
}

/// What the machine does with the trees on its stack. An operator stands behind its operands (postfix order), so that
/// the instructions are those of the tree from left to right.
#[derive(Drop)]
pub enum Instruction {
    /// Puts a literal on the stack.
    Literal(Lit),
    /// Puts a reference to a name on the stack.
    Name(Scope, Text),
    /// Replaces the last tree.
    Unary(UnOp),
    /// Joins the last two trees.
    Infix(Infix),
    /// Makes a conditional of the last three trees.
    Choice,
    /// Selects a name from the last tree.
    Select(Text),
    /// Takes the last tree as a place in the one below it.
    Subscript,
    /// Puts an empty list on the stack, with room for so many elements.
    List(usize),
    /// Puts a call without arguments on the stack, with room for so many.
    Call(Text, usize),
    /// Adds the last tree to the list or the call below it.
    Element,
    /// Puts an ad literal without definitions on the stack.
    Ad,
    /// Defines a name in the ad literal below the last tree, as that tree.
    Define(Text),
    /// Ends the definitions of the ad literal that is the last tree.
    Close,
}

impl Instruction {
    /// Whether it puts a tree on the stack that is a literal or a name.
    #[inline(always)]
    pub(crate) fn is_leaf(&self) -> bool
        ensures { result ≡ is_leaf self.now }
    {
        match self {
            Instruction::Literal(_) => true,
            Instruction::Name(_, _) => true,
            _ => false,
        }
    }
}
