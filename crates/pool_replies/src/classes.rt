// Classes of jobs by their names, and their text.
ghost use Rattle.std.specs.Prelude.{◌≡◌, ◌++◌, ◌∷◌, [], OnOk};
ghost use Rattle.pool_replies.specs.Classes as texts;

use crate::writing::{append_amount, append_amount_line, append_names_line};
use pool_text::{Names, OutOfMemory, Text};
use std::alloc::Global;
use std::convert::AsSlice;
use std::marker::Model;

/// Lists of names, one for each class, which contracts see as a list of lists.
#[derive(Drop)]
pub struct NamesList {
    alloc: Global,
    lists: Vec<Names>,
}

impl Model for NamesList {
    ghost use Rattle.std.specs.Prelude.{List, ℕ};

    ghost Value = { List (List (List ℕ)) };

    ghost view = { λ l. l.lists.items };
}

impl NamesList {
    /// No list, which takes no memory yet.
    pub fn new(alloc: Global) -> NamesList
        ensures { result ≡ [] }
    {
        NamesList {
            alloc,
            lists: Vec::new(alloc),
        }
    }

    /// Adds a name at the end of list `i`, counted from 0, or in a new list behind the others where there is no list `i`.
    pub fn add(&mut self, i: usize, name: Text) -> Result<(), OutOfMemory>
        ensures { OnOk result (self.new ≡ texts.with_member i name self.old) }
    {
        if i < self.lists.len() {
            self.lists[i].push(name)
        } else {
            self.begin(name)
        }
    }

    // A new list, of one name.
    fn begin(&mut self, name: Text) -> Result<(), OutOfMemory>
        ensures { OnOk result (self.new ≡ self.old ++ (name ∷ []) ∷ []) }
    {
        let mut names = Names::new(self.alloc);
        names.push(name)?;
        self.lists.push(names)?;
        Ok(())
    }
}

/// Appends the lines of classes: how many there are, and one for each.
pub(crate) fn append_classes(out: &mut Text, classes: &NamesList) -> Result<(), OutOfMemory>
    ensures { OnOk result (out.new ≡ out.old ++ texts.classes_text classes.now) }
{
    append_amount_line(out, b"classes ", classes.lists.len() as u64)?;
    append_lists(out, &classes.lists)
}

fn append_lists(out: &mut Text, lists: &[Names]) -> Result<(), OutOfMemory>
    ensures { OnOk result (out.new ≡ out.old ++ texts.class_lines 1 lists.now) }
{
    for (i, names) in lists.iter().enumerate() {
        append_class(out, i as u64 + 1, names)?;
    }
    Ok(())
}

fn append_class(out: &mut Text, number: u64, names: &Names) -> Result<(), OutOfMemory>
    ensures { OnOk result (out.new ≡ out.old ++ texts.class_line number names.now) }
{
    append_amount(out, b"class ", number)?;
    append_names_line(out, names)
}
