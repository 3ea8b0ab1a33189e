// Tests as a requirement has them.
use pool_text::{BinOp, Items, Lit, Text};

/// A conjunct of a requirement that asks for one attribute of the other side (Raman, Livny and Solomon 1998, matching
/// both ways round; that such conjuncts are told apart is this project's own).
#[derive(Drop)]
pub enum Test {
    /// The attribute itself has to be true.
    Truth {
        name: Text,
    },
    /// The attribute is compared with a literal; `attr_left` says that the attribute stands to the left of the operator.
    Compare {
        name: Text,
        op: BinOp,
        lit: Lit,
        attr_left: bool,
    },
}

/// The tests of a requirement in their order, which contracts see as a list of tests.
pub type Tests = Items<Test>;
