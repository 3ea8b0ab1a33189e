// The machine that builds a tree on a stack, one instruction after the other.
ghost use Rattle.std.specs.Prelude.{◌≡◌, ◌∷◌, [], true, IfOk, IsOk, OnErr, OnOk};
ghost use Rattle.ad_tree.specs.Ad.{ad_frames};
ghost use Rattle.ad_tree.specs.Inline.{inner, no_defs, ad_of, phrase_of, phrase_tree};
ghost use Rattle.ad_tree.specs.Tree.{tree};
ghost use Rattle.ad_builder.specs.Leaves.{is_leaf};
ghost use Rattle.ad_builder.specs.Machine.{stack, top, below, step, chosen};
ghost use Rattle.ad_builder.specs.Sizes.{IsHigh, IsSize};

use crate::builder::Builder;
use crate::history::History;
use crate::instruction::Instruction;
use crate::size::Size;
use ad_tree::{Ad, Phrase};
use pool_text::OutOfMemory;
use std::alloc::Global;
use std::marker::Model;

/// A tree that is higher than this is dropped: what takes a tree apart goes down level by level.
const HEIGHT_LIMIT: u8 = 64;

/// A machine with a stack of trees, which instructions build. Contracts see it as the instructions that it has carried out.
///
/// Once one of the trees is too high, no more is built, since it stays part of all that it becomes part of.
#[derive(Drop)]
pub struct Machine {
    builder: Builder,
    is_ad: bool,
    is_high: bool,
    history: History,
}

impl Model for Machine {
    ghost use Rattle.std.specs.Prelude.{List};
    ghost use Rattle.ad_builder.specs.Carried.{IsCarried};
    ghost use Rattle.ad_builder.specs.Machine.{stack};
    ghost use Rattle.ad_builder.specs.declared.instruction.Instruction.{Instruction};

    ghost Value = { List Instruction };

    ghost view = { λ m. m.history.instructions };

    ghost invariant = { λ m. IsCarried m.is_ad m.is_high m.builder (stack m.history.instructions) };
}

impl Machine {
    ghost use Rattle.ad_builder.specs.declared.instruction.Instruction.TheVariants as instructions;

    /// A machine for an expression: nothing stands on its stack. The hashes of names begin with this seed.
    pub fn of_expression(alloc: Global, seed: u64) -> Machine
        ensures { stack result ≡ [] }
    {
        Machine {
            builder: Builder::of_expression(alloc, seed),
            is_ad: false,
            is_high: false,
            history: History::new(),
        }
    }

    /// A machine for an ad, which is the ad literal that stands on its stack, with room for so many definitions.
    pub fn of_ad(alloc: Global, seed: u64, room: usize) -> Result<Machine, OutOfMemory>
        ensures { IfOk result (λ machine. stack machine ≡ inner no_defs ∷ []) }
    {
        let builder = Builder::of_ad(alloc, seed, room)?;
        Ok(Machine {
            builder,
            is_ad: true,
            is_high: false,
            history: History::new().with(&Instruction::Ad),
        })
    }

    /// Carries an instruction out. Where memory is wanting, the machine is emptied: what it was building may be in pieces. A
    /// machine with a tree that is too high builds nothing, and so is refused no memory.
    #[inline(always)]
    pub fn push(&mut self, instruction: Instruction) -> Result<(), OutOfMemory>
        ensures ok { OnOk result (stack self.new ≡ step instruction (stack self.old)) }
        ensures err { OnErr result (stack self.new ≡ []) }
        ensures high { IsHigh (stack self.old) → IsOk result }
    {
        self.history = self.history.with(&instruction);
        if self.is_high {
            drop(instruction);
            return Ok(());
        }
        match self.builder.carry_out(instruction) {
            Ok(()) => {
                self.is_high = self.builder.last_height() > HEIGHT_LIMIT;
                Ok(())
            }
            Err(error) => {
                *self = Machine::of_expression(self.builder.alloc(), 0);
                Err(error)
            }
        }
    }

    /// Carries an instruction out, and then `Element`. A leaf goes at once to the list or the call that takes it.
    #[inline(always)]
    pub fn push_element(&mut self, instruction: Instruction) -> Result<(), OutOfMemory>
        ensures ok { OnOk result (stack self.new ≡ step instructions.Element (step instruction (stack self.old))) }
        ensures err { OnErr result (stack self.new ≡ []) }
        ensures high { IsHigh (stack self.old) → IsOk result }
    {
        if !instruction.is_leaf() {
            self.push(instruction)?;
            return self.push(Instruction::Element);
        }
        self.push_leaf(instruction)
    }

    // The same for an instruction that puts a leaf.
    #[inline(always)]
    fn push_leaf(&mut self, leaf: Instruction) -> Result<(), OutOfMemory>
        requires { is_leaf leaf ≡ true }
        ensures ok { OnOk result (stack self.new ≡ step instructions.Element (step leaf (stack self.old))) }
        ensures err { OnErr result (stack self.new ≡ []) }
        ensures high { IsHigh (stack self.old) → IsOk result }
    {
        self.history = self.history.with(&leaf).with(&Instruction::Element);
        if self.is_high {
            drop(leaf);
            return Ok(());
        }
        match self.builder.carry_out_element(leaf) {
            Ok(()) => {
                let height = self.builder.last_height();
                self.is_high = height > HEIGHT_LIMIT;
                Ok(())
            }
            Err(error) => {
                let alloc = self.builder.alloc();
                *self = Machine::of_expression(alloc, 0);
                Err(error)
            }
        }
    }

    /// So many conditionals within one another.
    pub fn choose(&mut self, conditionals: usize) -> Result<(), OutOfMemory>
        ensures { OnOk result (stack self.new ≡ chosen conditionals (stack self.old)) }
    {
        for _ in 0..conditionals {
            self.push(Instruction::Choice)?;
        }
        Ok(())
    }

    /// How large the tree is that stands alone on the stack.
    pub fn size(&self) -> Size
        requires { below (stack self.now) ≡ [] }
        ensures { IsSize result (top (stack self.now)) }
    {
        Size {
            is_high: self.is_high,
            frames: self.builder.frames(),
            definitions: self.builder.definitions(),
        }
    }

    /// The ad of the ad literal that stands alone on the stack of a machine for an ad. Where none does, or not all is built,
    /// that is told as want of memory.
    pub fn finish_ad(self) -> Result<Ad, OutOfMemory>
        ensures { IfOk result (λ ad. ad_frames ad ≡ ad_of (top (stack self))) }
    {
        let Machine {
            builder,
            is_ad,
            is_high,
            ..
        } = self;
        if is_ad && !is_high {
            if let Some(made) = builder.finish_ad() {
                return made;
            }
        } else {
            drop(builder);
        }
        Err(OutOfMemory)
    }

    /// The expression that stands alone on the stack of a machine for an expression, with the ad of its ad literals. Where none
    /// does, or not all is built, that is told as want of memory.
    pub fn finish_phrase(self) -> Result<Phrase, OutOfMemory>
        ensures frames { IfOk result (λ phrase. ad_frames phrase.ad ≡ phrase_of (top (stack self))) }
        ensures expr { IfOk result (λ phrase. tree phrase.expr ≡ phrase_tree (top (stack self))) }
    {
        let Machine {
            builder,
            is_ad,
            is_high,
            ..
        } = self;
        if !is_ad && !is_high {
            if let Some(made) = builder.finish_phrase() {
                return made;
            }
        } else {
            drop(builder);
        }
        Err(OutOfMemory)
    }
}
