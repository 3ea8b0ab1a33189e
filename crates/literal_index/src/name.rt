// Names that entries share.
ghost use Rattle.std.specs.Prelude.{◌≡◌, IfOk};

use pool_text::{OutOfMemory, Text};
use std::alloc::Global;
use std::collections::HashMap;
use std::marker::Model;
use std::rc::Rc;

/// At so many names all are forgotten, so that those that are gone, or that no two ads share, don't pile up.
const MOST_NAMES: usize = 1024;

/// A name that is kept once for all who share it, which contracts see as its bytes.
#[derive(Drop)]
pub struct Name {
    text: Rc<Text>,
}

impl Model for Name {
    ghost use Rattle.std.specs.Prelude.{List, ℕ};

    ghost Value = { List ℕ };

    ghost view = { λ n. n.text.value };
}

impl Name {
    /// The bytes.
    pub fn bytes(&self) -> &[u8]
        ensures { result.now ≡ self.now }
    {
        self.text.bytes()
    }

    // A name that nobody shares yet.
    fn new(alloc: Global, name: &Text) -> Result<Name, OutOfMemory>
        ensures { IfOk result (λ own. own ≡ name.now) }
    {
        let text = Text::from_bytes(alloc, name.bytes())?;
        Ok(Name {
            text: Rc::new(alloc, text)?,
        })
    }

    // The same name for one more.
    fn share(&self) -> Result<Name, OutOfMemory>
        ensures { IfOk result (λ shared. shared ≡ self.now) }
    {
        Ok(Name {
            text: self.text.clone()?,
        })
    }
}

/// The names that were asked for of late, so that one that thousands of ads have is kept once.
///
/// No more than a cache, of which contracts say nothing: a name is found by its digest, compared with what is sought, and may
/// be forgotten at any time.
#[derive(Drop)]
pub struct NameCache {
    alloc: Global,
    names: HashMap<u64, Name>,
}

impl NameCache {
    /// A cache of no names, which takes no memory yet.
    pub fn new(alloc: Global) -> NameCache {
        NameCache {
            alloc,
            names: HashMap::new(alloc),
        }
    }

    /// This name of a digest, shared with those who asked for it before.
    pub fn shared(&mut self, digest: u64, name: &Text) -> Result<Name, OutOfMemory>
        ensures { IfOk result (λ shared. shared ≡ name.now) }
    {
        match self.names.get(&digest) {
            Some(known) if *known.text == *name => known.share(),
            _ => self.take_in(digest, name),
        }
    }

    // This name, which is found from now on.
    fn take_in(&mut self, digest: u64, name: &Text) -> Result<Name, OutOfMemory>
        ensures { IfOk result (λ shared. shared ≡ name.now) }
    {
        let own = Name::new(self.alloc, name)?;
        if self.names.len() >= MOST_NAMES {
            self.names.clear();
        }
        self.names.insert(digest, own.share()?)?;
        Ok(own)
    }
}
