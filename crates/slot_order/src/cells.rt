// The cells of an order, each with a slot or empty, and the cell of each slot.
ghost use Rattle.std.specs.Prelude.{◌≡◌, ◌≢◌, [], ◌++◌, ◌∷◌, ◌*◌, ◌+◌, ◌-◌, ◌<◌, ◌≤◌, ◌⊎◌, ℕ, IfNone, IfSome, None, OnErr, OnOk, Some, filter, is_some};
ghost use Rattle.std.specs.Prelude.{count_by, length, min, slice_get, slice_set, sum, vec_len};
ghost use Rattle.slot_order.specs.Cells.{AreFound, AreLone, AreNoted, before, listed};

use pool_text::OutOfMemory;
use std::alloc::Global;
use std::marker::Model;

// How many cells make a block, as `AreCounted` has it.
const BLOCK: usize = 64;

/// Cells in order, each with a slot or empty, which contracts see as the list of them. The slots of each block of cells are
/// counted, so that a place is found without going through all the cells before it.
#[derive(Drop)]
pub(crate) struct Cells {
    cells: Vec<Option<usize>>,
    // How many slots are in each block, as far as the cells reach at least.
    counts: Vec<usize>,
}

impl Model for Cells {
    ghost use Rattle.std.specs.Prelude.{ℕ, List, Option};
    ghost use Rattle.slot_order.specs.Cells.{AreCounted};

    ghost Value = { List (Option ℕ) };

    ghost view = { λ c. c.cells.items };

    ghost invariant = { λ c. AreCounted c.cells.items c.counts.items };
}

impl Cells {
    /// No cells, which takes no memory yet.
    pub(crate) fn new(alloc: Global) -> Cells
        ensures { result ≡ [] }
    {
        Cells {
            cells: Vec::new(alloc),
            counts: Vec::new(alloc),
        }
    }

    /// How many cells there are, empty ones too.
    #[inline(always)]
    pub(crate) fn len(&self) -> usize
        ensures { result ≡ length self.now }
    {
        self.cells.len()
    }

    /// The cells.
    #[inline(always)]
    pub(crate) fn as_slice(&self) -> &[Option<usize>]
        ensures { result.now ≡ self.now }
    {
        self.cells.as_slice()
    }

    /// Puts a cell with a slot last.
    pub(crate) fn push(&mut self, slot: usize) -> Result<(), OutOfMemory>
        ensures ok { OnOk result (self.new ≡ self.old ++ Some slot ∷ []) }
        ensures fits { OnOk result (length self.new ≤ usize.MAX) }
        ensures err { OnErr result (self.new ≡ self.old) }
    {
        let block = self.cells.len() / BLOCK;
        self.cells.reserve(1)?;
        reach(&mut self.counts, block)?;
        self.counts[block] += 1;
        self.cells.push_reserved(Some(slot));
        Ok(())
    }

    /// Makes a cell with a slot a gap.
    pub(crate) fn empty(&mut self, cell: usize)
        requires { (slot : ℕ) × (slice_get self.old cell ≡ Some (Some slot)) }
        ensures { self.new ≡ slice_set self.old cell None }
    {
        self.cells[cell] = None;
        self.counts[cell / BLOCK] -= 1;
    }

    /// Takes out the empty cells.
    pub(crate) fn close(&mut self)
        ensures { self.new ≡ filter is_some self.old }
    {
        close_gaps(&mut self.cells);
        count_full(&mut self.counts, self.cells.len());
    }

    /// How many slots stand before a cell.
    pub(crate) fn before(&self, cell: usize) -> usize
        requires { cell ≤ length self.now }
        ensures { result ≡ before self.now cell }
    {
        let block = cell / BLOCK;
        total(&self.counts[..block]) + slots_in(&self.cells[BLOCK * block..cell])
    }

    /// The slot with so many before it.
    pub(crate) fn nth(&self, i: usize) -> Option<usize>
        ensures { result ≡ slice_get (listed self.now) i }
    {
        let mut left = i;
        for block in 0..self.counts.len() {
            let count = self.counts[block];
            if left < count {
                return nth_of(&self.cells[BLOCK * block..], left);
            }
            left -= count;
        }
        None
    }
}

/// The cell of a slot.
#[inline(always)]
pub(crate) fn cell_of(cells: &[Option<usize>], places: &[usize], slot: usize) -> Option<usize>
    ensures found { IfSome result (λ cell. slice_get cells.now cell ≡ Some (Some slot)) }
    ensures none { IfNone result ((cell : ℕ) → slice_get places.now slot ≡ Some cell → slice_get cells.now cell ≢ Some (Some slot)) }
{
    let cell = *places.get(slot)?;
    match cells.get(cell) {
        Some(Some(other)) if *other == slot => Some(cell),
        _ => None,
    }
}

// The slot with so many before it.
fn nth_of(cells: &[Option<usize>], i: usize) -> Option<usize>
    ensures { result ≡ slice_get (listed cells.now) i }
{
    let mut left = i;
    for k in 0..cells.len() {
        let Some(slot) = cells[k] else {
            continue;
        };
        if left == 0 {
            return Some(slot);
        }
        left -= 1;
    }
    None
}

// How many slots are in cells.
fn slots_in(cells: &[Option<usize>]) -> usize
    ensures { result ≡ count_by is_some cells.now }
{
    cells.iter().filter(|cell| cell.is_some()).count()
}

// The sum of counts.
fn total(counts: &[usize]) -> usize
    requires { sum counts.now ≤ usize.MAX }
    ensures { result ≡ sum counts.now }
{
    counts.iter().sum()
}

// Counts the slots of each block where no cell is empty.
fn count_full(counts: &mut [usize], len: usize)
    ensures { (block count : ℕ) → slice_get counts.new block ≡ Some count → count ≡ min (len - 64 * block) 64 }
{
    let mut left = len;
    for block in 0..counts.len() {
        let count = left.min(BLOCK);
        counts[block] = count;
        left -= count;
    }
}

/// Makes numbers reach as far as a place, by zeros.
pub(crate) fn reach(numbers: &mut Vec<usize>, place: usize) -> Result<(), OutOfMemory>
    ensures kept { (k n : ℕ) → slice_get numbers.old.items k ≡ Some n → slice_get numbers.new.items k ≡ Some n }
    ensures zeros { (k n : ℕ) → slice_get numbers.new.items k ≡ Some n
        → (slice_get numbers.old.items k ≡ Some n) ⊎ ((n ≡ 0) × (length numbers.old.items ≤ k)) }
    ensures longer { length numbers.old.items ≤ length numbers.new.items }
    ensures reached { OnOk result (place < vec_len numbers.new) }
{
    while numbers.len() <= place {
        numbers.push(0)?;
    }
    Ok(())
}

// Takes out the empty cells.
fn close_gaps(cells: &mut Vec<Option<usize>>)
    ensures { cells.new.items ≡ filter is_some cells.old.items }
{
    cells.retain(|cell| cell.is_some());
}

/// Takes note of the cell of each slot.
pub(crate) fn note_places(cells: &[Option<usize>], places: &mut Vec<usize>)
    requires lone { AreLone cells.now }
    requires found { AreFound cells.now (vec_len places.old) }
    ensures { AreNoted cells.now places.new.items }
{
    for k in 0..cells.len() {
        if let Some(slot) = cells[k] {
            places[slot] = k;
        }
    }
}
