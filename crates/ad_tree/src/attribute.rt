// The attributes of a frame, which are equal where their names are, so that a set of them has each name once.
ghost use Rattle.std.specs.Cmp.{partial_equiv_from_equiv};
ghost use Rattle.std.specs.Cmp.Lexicographic.{on_texts_equal};
ghost use Rattle.pool_text.specs.Folding.{folded};
ghost use Rattle.ad_tree.specs.Names.{same_name};
ghost use Rattle.ad_tree.specs.Words.{hashed_name, equal_names};

use crate::Expr;
use crate::name_key::NameKey;
use pool_text::{Text, same_folded};
use std::hash::{Hash, Hasher};

/// A name with its expression.
#[derive(Drop)]
pub struct Attribute {
    pub name: Text,
    pub expr: Expr,
}

impl PartialEq for Attribute {
    ghost eq = { λ a b. same_name a.name b.name };

    ghost laws = { partial_equiv_from_equiv (on_texts_equal (λ a. folded a.name)) };

    #[inline(always)]
    fn eq(&self, other: &Attribute) -> bool {
        same_folded(self.name.bytes(), other.name.bytes())
    }
}

impl Eq for Attribute {
    ghost laws = { on_texts_equal (λ a. folded a.name) };
}

impl Hash for Attribute {
    ghost hash_input = { λ a. hashed_name a.name };

    ghost respects_eq = { λ a b. equal_names.fed a.name b.name };

    #[inline(always)]
    fn hash<H: Hasher>(&self, state: &mut H) {
        let name = self.name.bytes();
        NameKey { name }.hash(state);
    }
}
