// The desk: names, each with its box.
ghost use Rattle.std.specs.Prelude.{◌≡◌, ◌+◌, ◌<◌, ◌≤◌, ◌↔◌, ◌∷◌, ◌++◌, [], count_by, filter, length, map, option_map, slice_get, sum_by, vec_capacity};
ghost use Rattle.std.specs.Prelude.{vec_len, IfErr, IfNone, IfSome, IsErrAnd, IsNone, IsSome, IsTrue, OnErr, OnOk, Some};
ghost use Rattle.notice_desk.specs.Desk.{Posts, box_under, boxed_row, failures_under, is_marked, leaves_with, marked_row, names_of, new_row, retired, told_by};
ghost use Rattle.notice_desk.specs.Desk.{without};
ghost use Rattle.notice_desk.specs.Faults.{box_of, is_in_use};
ghost use Rattle.notice_desk.specs.Names.{AreDistinct, IsAbsent};
ghost use Rattle.notice_desk.specs.Sight.{boxes, entry_names, left_rows, row_of, rows_of};

use crate::entry::{Entry, HeldBox, LeftBox};
use crate::{Mailbox, Notices, PostEnd};
use pool_text::{OutOfMemory, Text};
use std::alloc::Global;

/// The box that could not be added, which is handed back.
#[derive(Drop)]
pub enum AddFault {
    /// The name is on the desk.
    InUse(Box<dyn Mailbox>),
    /// Memory is wanting.
    OutOfMemory(Box<dyn Mailbox>),
}

/// Distinct names, each with its box, or with none where the box was retired, and with the number of its failures. Boxes that left
/// are kept, as they were, until the desk is dropped.
#[derive(Drop)]
pub struct Desk {
    alloc: Global,
    entries: Vec<Entry>,
    // With room for the boxes that can still leave, so that leaving takes no memory.
    left: Vec<LeftBox>,
    ghost distinct: { AreDistinct (entry_names entries.items) },
    ghost room: { vec_len left + sum_by boxes entries.items ≤ vec_capacity left },
}

// The place of a name.
fn place_in(entries: &[Entry], name: &[u8]) -> Option<usize>
    ensures found { IfSome result (λ i. slice_get (entry_names entries.now) i ≡ Some name.now) }
    ensures inside { IfSome result (λ i. i < length entries.now) }
    ensures absent { IfNone result (IsAbsent name.now (entry_names entries.now)) }
{
    for (i, entry) in entries.iter().enumerate() {
        if entry.is_named(name) {
            return Some(i);
        }
    }
    None
}

// Takes out each box that is marked, puts it behind those that left, and answers how many.
fn retire_in(entries: &mut [Entry], left: &mut Vec<LeftBox>) -> u64
    requires room { vec_len left.old + sum_by boxes entries.old ≤ vec_capacity left.old }
    ensures count { result ≡ count_by is_marked (rows_of taking entries.old) }
    ensures rows { rows_of taking entries.new ≡ map retired (rows_of taking entries.old) }
    ensures left { left_rows taking left.new.items ≡ left_rows taking left.old.items ++ filter is_marked (rows_of taking entries.old) }
    ensures room { vec_len left.new + sum_by boxes entries.new ≤ vec_capacity left.new }
{
    let mut count = 0;
    for entry in entries.iter_mut() {
        if retire_one(entry, left) {
            count += 1;
        }
    }
    count
}

// Takes the box out where it is marked, puts it behind those that left, and answers whether it did.
fn retire_one(entry: &mut Entry, left: &mut Vec<LeftBox>) -> bool
    requires room { vec_len left.old + boxes entry.old ≤ vec_capacity left.old }
    ensures marked { result ≡ is_marked (row_of taking entry.old) }
    ensures row { row_of taking entry.new ≡ retired (row_of taking entry.old) }
    ensures left { left_rows taking left.new.items ≡ left_rows taking left.old.items ++ marked_row (row_of taking entry.old) }
    ensures len { vec_len left.new + boxes entry.new ≡ vec_len left.old + boxes entry.old }
    ensures capacity { vec_capacity left.new ≡ vec_capacity left.old }
{
    let Some(one) = entry.retire() else {
        return false;
    };
    left.push_reserved(one);
    true
}

// Puts the box of an entry, where it has one, behind those that left.
fn keep_box(left: &mut Vec<LeftBox>, entry: Entry)
    requires room { vec_len left.old + boxes entry ≤ vec_capacity left.old }
    ensures left { left_rows taking left.new.items ≡ left_rows taking left.old.items ++ boxed_row (row_of taking entry) }
    ensures len { vec_len left.new ≡ vec_len left.old + boxes entry }
    ensures capacity { vec_capacity left.new ≡ vec_capacity left.old }
{
    let Some(one) = entry.into_left() else {
        return;
    };
    left.push_reserved(one);
}

impl Desk {
    ghost use Rattle.notice_desk.specs.Rows.{rows, rows_left};

    /// An empty desk, which takes no memory yet.
    pub fn new(alloc: Global) -> Desk
        ensures rows { rows taking result ≡ [] }
        ensures left { rows_left taking result ≡ [] }
    {
        Desk {
            alloc,
            entries: Vec::new(alloc),
            left: Vec::new(alloc),
        }
    }

    /// Puts a name with its box on the desk, unmarked and with no failures. `InUse` comes exactly where the name is there;
    /// the box is handed back with each fault, and the desk stays.
    pub fn add(&mut self, name: &[u8], mailbox: Box<dyn Mailbox>) -> Result<(), AddFault>
        ensures ok { OnOk result (rows taking self.new ≡ rows taking self.old ++ new_row name.now (taking mailbox) ∷ []) }
        ensures in_use { IsErrAnd result (λ fault. IsTrue (is_in_use fault)) ↔ IsSome (failures_under name.now (rows taking self.old)) }
        ensures back { IfErr result (λ fault. box_of fault ≡ mailbox) }
        ensures err { OnErr result (rows taking self.new ≡ rows taking self.old) }
        ensures left { rows_left taking self.new ≡ rows_left taking self.old }
    {
        if self.place_of(name).is_some() {
            return Err(AddFault::InUse(mailbox));
        }
        let Ok(own) = Text::from_bytes(self.alloc, name) else {
            return Err(AddFault::OutOfMemory(mailbox));
        };
        let Ok(name) = Text::from_bytes(self.alloc, name) else {
            return Err(AddFault::OutOfMemory(mailbox));
        };
        if self.make_room().is_err() {
            return Err(AddFault::OutOfMemory(mailbox));
        }
        self.put_last(name, own, mailbox);
        Ok(())
    }

    // Makes room for one more name, and for its box where it leaves.
    fn make_room(&mut self) -> Result<(), OutOfMemory>
        ensures entries { self.new.entries.items ≡ self.old.entries.items }
        ensures left { self.new.left.items ≡ self.old.left.items }
        ensures room { OnOk result (vec_len self.new.entries < vec_capacity self.new.entries) }
        ensures left_room { OnOk result (vec_len self.new.left + sum_by boxes self.new.entries.items < vec_capacity self.new.left) }
    {
        self.entries.reserve(1)?;
        self.left.reserve(self.entries.len() + 1)?;
        Ok(())
    }

    // Puts a name that isn't there behind the others, in room that is there.
    fn put_last(&mut self, name: Text, own: Text, mailbox: Box<dyn Mailbox>)
        requires absent { IsAbsent name (entry_names self.old.entries.items) }
        requires own { own ≡ name }
        requires room { vec_len self.old.entries < vec_capacity self.old.entries }
        requires left_room { vec_len self.old.left + sum_by boxes self.old.entries.items < vec_capacity self.old.left }
        ensures rows { rows taking self.new ≡ rows taking self.old ++ new_row name (taking mailbox) ∷ [] }
        ensures left { rows_left taking self.new ≡ rows_left taking self.old }
    {
        self.entries.push_reserved(Entry {
            name,
            held: Some(HeldBox {
                name: own,
                mailbox,
                failed: false,
            }),
            failures: 0,
        });
    }

    // The place of a name.
    fn place_of(&self, name: &[u8]) -> Option<usize>
        ensures found { IfSome result (λ i. slice_get (entry_names self.now.entries.items) i ≡ Some name.now) }
        ensures inside { IfSome result (λ i. i < vec_len self.now.entries) }
        ensures absent { IfNone result (IsAbsent name.now (entry_names self.now.entries.items)) }
    {
        place_in(&self.entries, name)
    }
}

impl Notices for Desk {
    ghost use Rattle.notice_desk.specs.Rows.{rows, rows_left};

    ghost shows = { λ desk. rows (λ b. (Mailbox-box b).taking b.value) desk };

    ghost left = { λ desk. rows_left (λ b. (Mailbox-box b).taking b.value) desk };

    fn len(&self) -> usize {
        self.entries.len()
    }

    fn name(&self, i: usize) -> &Text {
        &self.entries[i].name
    }

    fn shown(&self, name: &[u8]) -> Option<&[u8]> {
        let Some(i) = self.place_of(name) else {
            return None;
        };
        self.entries[i].shown()
    }

    fn failures(&self, name: &[u8]) -> Option<u64> {
        let Some(i) = self.place_of(name) else {
            return None;
        };
        Some(self.entries[i].failures)
    }

    fn post(&mut self, name: &[u8], notice: &[u8]) -> PostEnd {
        let Some(i) = self.place_of(name) else {
            return PostEnd::NoBox;
        };
        let entry = &mut self.entries[i];
        entry.post(notice)
    }

    fn retire_failed(&mut self) -> u64 {
        retire_in(&mut self.entries, &mut self.left)
    }

    fn close(&mut self, name: &[u8]) -> bool {
        let Some(i) = self.place_of(name) else {
            return false;
        };
        let entry = self.entries.remove(i);
        keep_box(&mut self.left, entry);
        true
    }
}
