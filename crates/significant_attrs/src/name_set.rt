// A set of names without the difference of capital and small letters.
ghost use Rattle.std.specs.Prelude.{◌≡◌, ◌||◌, ◌++◌, ◌∷◌, [], ℕ, List, map, IfOk, OnErr, OnOk};
ghost use Rattle.pool_text.specs.Folding.{folded};
ghost use Rattle.ad_tree.specs.Names.{has_name, same_name};

use pool_text::{OutOfMemory, fold};
use std::alloc::Global;
use std::collections::BTreeSet;

/// Names, each once and with its letters small. They stand in an order, so that no choice of names makes a look-up slow.
#[derive(Drop)]
pub(crate) struct NameSet {
    alloc: Global,
    names: BTreeSet<Vec<u8>>,
    ghost are_folded: { map folded (map (λ key. key.items) names.keys) ≡ map (λ key. key.items) names.keys },
}

impl NameSet {
    pub(crate) fn new(alloc: Global) -> NameSet
        ensures { map (λ key. key.items) result.names.keys ≡ [] }
    {
        NameSet {
            alloc,
            names: BTreeSet::new(alloc),
        }
    }

    /// Adds a name where it isn't there.
    pub(crate) fn add(&mut self, name: &[u8]) -> Result<(), OutOfMemory>
        ensures { OnOk result ((x : List ℕ) → has_name x (map (λ key. key.items) self.new.names.keys)
            ≡ (has_name x (map (λ key. key.items) self.old.names.keys) || same_name name.now x)) }
    {
        let small = fold(self.alloc, name)?;
        if self.names.contains(small.bytes()) {
            return Ok(());
        }
        insert(self.alloc, &mut self.names, small.bytes())
    }

    /// Whether a name is there.
    pub(crate) fn has(&self, name: &[u8]) -> Result<bool, OutOfMemory>
        ensures { IfOk result (λ b. b ≡ has_name name.now (map (λ key. key.items) self.now.names.keys)) }
    {
        let small = fold(self.alloc, name)?;
        Ok(self.names.contains(small.bytes()))
    }
}

// Adds a name with small letters: it counts as one that is put last.
fn insert(alloc: Global, names: &mut BTreeSet<Vec<u8>>, name: &[u8]) -> Result<(), OutOfMemory>
    requires { folded name.now ≡ name.now }
    ensures has { OnOk result ((x : List ℕ) → has_name x (map (λ key. key.items) names.new.keys)
        ≡ has_name x (map (λ key. key.items) names.old.keys ++ name.now ∷ [])) }
    ensures folded { map folded (map (λ key. key.items) names.old.keys) ≡ map (λ key. key.items) names.old.keys
        → map folded (map (λ key. key.items) names.new.keys) ≡ map (λ key. key.items) names.new.keys }
    ensures err { OnErr result (names.new.keys ≡ names.old.keys) }
{
    let key = Vec::from_slice(alloc, name)?;
    names.insert(key)?;
    Ok(())
}
