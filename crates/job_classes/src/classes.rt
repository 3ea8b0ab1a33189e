// Classes of requests with one key.
ghost use Rattle.std.specs.Prelude.{◌≡◌, ◌++◌, ◌∷◌, [], length, None, OnErr, OnOk, IfOk};
ghost use Rattle.job_classes.specs.Classes.{has_key, joined, number_of};

use crate::Key;
use pool_text::OutOfMemory;
use std::alloc::Global;
use std::marker::Model;

/// Classes in the order in which they were begun, which contracts see as the list of their keys: none for a class that was
/// begun alone.
#[derive(Drop)]
pub struct Classes {
    keys: Vec<Option<Key>>,
}

impl Model for Classes {
    ghost use Rattle.std.specs.Prelude.{List, Option};
    ghost use Rattle.job_classes.specs.Keys.{Entry};

    ghost Value = { List (Option (List Entry)) };

    ghost view = { λ classes. classes.keys.items };
}

impl Classes {
    /// No class, which takes no memory yet.
    pub fn new(alloc: Global) -> Classes
        ensures { result ≡ [] }
    {
        Classes {
            keys: Vec::new(alloc),
        }
    }

    /// The number of the class with this key, counted from 0: a new one, behind all others, where none has it.
    pub fn join(&mut self, key: Key) -> Result<usize, OutOfMemory>
        ensures number { IfOk result (λ n. n ≡ number_of key self.old) }
        ensures ok { OnOk result (self.new ≡ joined key self.old) }
        ensures err { OnErr result (self.new ≡ self.old) }
    {
        let number = number_of(&self.keys, &key);
        if number == self.keys.len() {
            self.keys.push(Some(key))?;
        }
        Ok(number)
    }

    /// The number of a new class, which no key joins.
    pub fn alone(&mut self) -> Result<usize, OutOfMemory>
        ensures number { IfOk result (λ n. n ≡ length self.old) }
        ensures ok { OnOk result (self.new ≡ self.old ++ None ∷ []) }
        ensures err { OnErr result (self.new ≡ self.old) }
    {
        let number = self.keys.len();
        self.keys.push(None)?;
        Ok(number)
    }

    /// How many classes there are.
    pub fn len(&self) -> usize
        ensures { result ≡ length self.now }
    {
        self.keys.len()
    }
}

// The number of the first class with the key, or of a new one. Keys that differ do so in their digests, and there are few classes
// where there are many jobs, so the classes are gone through.
fn number_of(keys: &[Option<Key>], key: &Key) -> usize
    ensures { result ≡ number_of key.now keys.now }
{
    for i in 0..keys.len() {
        if has_key(&keys[i], key) {
            return i;
        }
    }
    keys.len()
}

fn has_key(class: &Option<Key>, key: &Key) -> bool
    ensures { result ≡ has_key key.now class.now }
{
    match class {
        None => false,
        Some(other) => other.is_same(key),
    }
}
