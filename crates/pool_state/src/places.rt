// Places of jobs, each once.
ghost use Rattle.std.specs.Prelude.{◌≡◌, ◌<◌, ℕ, [], false, slice_index_or, vec_len, OnOk};
ghost use Rattle.claim_table.specs.Claims.{once};
ghost use Rattle.pool_state.specs.Marked.{AreMarked};

use pool_text::{OutOfMemory, Slots};
use std::alloc::Global;

/// Places of jobs in the order in which they came, each once. They are marked, so that one that comes again is known at once.
#[derive(Drop)]
pub(crate) struct Places {
    pub(crate) list: Slots,
    marks: Vec<bool>,
    ghost marked: { AreMarked list marks.items },
}

impl Places {
    /// No places, which take no memory yet.
    pub(crate) fn new(alloc: Global) -> Places
        ensures { result.list ≡ [] }
    {
        Places {
            list: Slots::new(alloc),
            marks: Vec::new(alloc),
        }
    }

    /// Adds a place where there is one, unless it is among them.
    pub(crate) fn add(&mut self, place: Option<usize>) -> Result<(), OutOfMemory>
        ensures { OnOk result (self.new.list ≡ once self.old.list place) }
    {
        let Some(i) = place else {
            return Ok(());
        };
        reach(&mut self.marks, i)?;
        if self.marks[i] {
            return Ok(());
        }
        self.list.push(i)?;
        self.marks[i] = true;
        Ok(())
    }
}

// Makes room for the mark of a place.
fn reach(marks: &mut Vec<bool>, place: usize) -> Result<(), OutOfMemory>
    ensures marks { (other : ℕ) → slice_index_or marks.new.items other false ≡ slice_index_or marks.old.items other false }
    ensures reached { OnOk result (place < vec_len marks.new) }
{
    while marks.len() <= place {
        marks.push(false)?;
    }
    Ok(())
}
