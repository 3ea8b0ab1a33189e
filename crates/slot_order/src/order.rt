// Slots in order.
ghost use Rattle.std.specs.Prelude.{◌≡◌, ◌==◌, [], false, length, slice_get, IfNone, IfSome, IsTrue, OnErr, OnOk, Some};
ghost use Rattle.std.specs.List.{list_any};
ghost use Rattle.slot_order.specs.Cells.{listed};
ghost use Rattle.slot_order.specs.Slots.{are_apart, with_last, without};

use crate::cells::{Cells, cell_of, note_places, reach};
use pool_text::OutOfMemory;
use std::alloc::Global;
use std::convert::AsSlice;
use std::marker::Model;

/// Slots in the order of their coming, no two of them one, which contracts see as the list of them.
///
/// A slot that leaves makes a gap, so that none behind it is moved. Gaps are closed once they are more than half, and by
/// `settle`. Without gaps `at` and `place` take a step; with gaps they go through the blocks of 64 cells before, and one block.
#[derive(Drop)]
pub struct SlotOrder {
    // A slot or a gap in each.
    cells: Cells,
    // The cell of each slot that is there.
    places: Vec<usize>,
    len: usize,
}

impl Model for SlotOrder {
    ghost use Rattle.std.specs.Prelude.{ℕ, List};
    ghost use Rattle.slot_order.specs.Cells.{IsKept, listed};

    ghost Value = { List ℕ };

    ghost view = { λ o. listed o.cells };

    ghost invariant = { λ o. IsKept o.cells o.places.items o.len };
}

impl SlotOrder {
    /// No slots, which takes no memory yet.
    pub fn new(alloc: Global) -> SlotOrder
        ensures { result ≡ [] }
    {
        SlotOrder {
            cells: Cells::new(alloc),
            places: Vec::new(alloc),
            len: 0,
        }
    }

    /// How many slots there are.
    pub fn len(&self) -> usize
        ensures { result ≡ length self.now }
    {
        self.len
    }

    /// Whether a slot is there.
    pub fn contains(&self, slot: usize) -> bool
        ensures { result ≡ list_any (λ s. s == slot) self.now }
    {
        cell_of(self.cells.as_slice(), self.places.as_slice(), slot).is_some()
    }

    /// Puts a slot last. One that is there already stays where it is.
    pub fn push(&mut self, slot: usize) -> Result<(), OutOfMemory>
        ensures ok { OnOk result (self.new ≡ with_last slot self.old) }
        ensures err { OnErr result (self.new ≡ self.old) }
    {
        if self.contains(slot) {
            return Ok(());
        }
        let cell = self.cells.len();
        reach(&mut self.places, slot)?;
        self.cells.push(slot)?;
        self.places[slot] = cell;
        self.len += 1;
        Ok(())
    }

    /// Takes out a slot, and tells whether it was there.
    pub fn remove(&mut self, slot: usize) -> bool
        ensures there { result ≡ list_any (λ s. s == slot) self.old }
        ensures left { self.new ≡ without slot self.old }
    {
        let Some(cell) = cell_of(self.cells.as_slice(), self.places.as_slice(), slot) else {
            return false;
        };
        self.cells.empty(cell);
        self.len -= 1;
        if self.len < self.cells.len() / 2 {
            self.close();
        }
        true
    }

    /// Closes the gaps, so that `at` and `place` take a step each until a slot leaves.
    pub fn settle(&mut self)
        ensures { self.new ≡ self.old }
    {
        if self.len < self.cells.len() {
            self.close();
        }
    }

    // Goes through the cells and closes the gaps.
    fn close(&mut self)
        ensures { self.new ≡ self.old }
    {
        self.cells.close();
        note_places(self.cells.as_slice(), &mut self.places);
    }

    /// The slot at place `i`, counted from 0.
    #[inline(always)]
    pub fn at(&self, i: usize) -> Option<usize>
        ensures { result ≡ slice_get self.now i }
    {
        if self.len == self.cells.len() {
            return *self.cells.as_slice().get(i)?;
        }
        self.cells.nth(i)
    }

    /// The place of a slot, `None` exactly where it isn't there.
    #[inline(always)]
    pub fn place(&self, slot: usize) -> Option<usize>
        ensures place { IfSome result (λ i. slice_get self.now i ≡ Some slot) }
        ensures none { IfNone result (list_any (λ s. s == slot) self.now ≡ false) }
    {
        let cell = cell_of(self.cells.as_slice(), self.places.as_slice(), slot)?;
        if self.len == self.cells.len() {
            return Some(cell);
        }
        Some(self.cells.before(cell))
    }

    /// The slots in order, with gaps between them.
    pub fn cells(&self) -> &[Option<usize>]
        ensures { listed result.now ≡ self.now }
    {
        self.cells.as_slice()
    }

    /// Law: no two slots are one.
    pub fn slots_are_apart(&self)
        ensures { IsTrue (are_apart self.now) }
    {
        let _len = self.len;
    }
}
