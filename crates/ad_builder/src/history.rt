// The instructions that a machine has carried out, for proofs alone.
ghost use Rattle.std.specs.Prelude.{◌≡◌, List, [], ◌∷◌, ◌++◌};
ghost use Rattle.std.specs.Borrow.{ftrue};
ghost use Rattle.ad_builder.specs.declared.instruction.Instruction.{Instruction};

use crate::instruction::Instruction;
use std::marker::Model;

/// Instructions in the order in which they were carried out. No code reads them: a history takes no memory, and its calls do
/// nothing when they are run. It is what a machine's stack is told from, since the ads that a machine builds keep the last
/// of repeated definitions alone.
#[derive(Drop)]
pub struct History {
    pub ghost instructions: { List Instruction },
}

impl Model for History {
    ghost also_owns = { λ _. ftrue };
}

impl History {
    /// Nothing was carried out yet.
    pub fn new() -> History
        ensures { result.instructions ≡ [] }
    {
        History {}
    }

    /// The same with one instruction more.
    #[inline(always)]
    pub fn with(&self, instruction: &Instruction) -> History
        ensures { result.instructions ≡ self.now.instructions ++ instruction.now ∷ [] }
    {
        History {}
    }
}
