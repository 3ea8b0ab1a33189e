//! A machine with a stack of trees, which builds an ad or an expression instruction by instruction, and tells how high its
//! tree is, and how many frames and definitions it spells.
#![tactic(auto)]

mod builder;
mod history;
mod instruction;
mod machine;
mod measure;
mod operand;
mod size;
mod stack;

pub use instruction::{Infix, Instruction};
pub use machine::Machine;
pub use size::Size;
