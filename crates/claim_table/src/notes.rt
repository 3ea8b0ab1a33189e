// The slot of the job that lists a resource, noted at the resource's slot.
ghost use Rattle.std.specs.Prelude.{◌≡◌, ◌+◌, ◌-◌, ◌<◌, ◌≤◌, ℕ, All, None, Some, length, max, nat_lt, vec_len, option_map, if◌then◌else◌, OnOk};
ghost use Rattle.claim_table.specs.Jobs.{lists};
ghost use Rattle.claim_table.specs.Kept.{note_at};

use pool_text::OutOfMemory;

/// The note at a slot.
pub(crate) fn note(notes: &[Option<usize>], slot: usize) -> Option<usize>
    ensures { result ≡ note_at notes.now slot }
{
    if slot < notes.len() {
        notes[slot]
    } else {
        None
    }
}

/// Notes a number, or none, at each of the slots.
pub(crate) fn put(notes: &mut Vec<Option<usize>>, slots: &[usize], number: Option<usize>)
    ensures notes { (slot : ℕ) → slot < vec_len notes.old → note_at notes.new.items slot
        ≡ (if lists slots.now slot then number else note_at notes.old.items slot) }
    ensures len { vec_len notes.new ≡ vec_len notes.old }
{
    for slot in slots {
        if *slot < notes.len() {
            notes[*slot] = number;
        }
    }
}

/// Makes room for a note at a slot.
pub(crate) fn reach(notes: &mut Vec<Option<usize>>, slot: usize) -> Result<(), OutOfMemory>
    ensures notes { (other : ℕ) → note_at notes.new.items other ≡ note_at notes.old.items other }
    ensures reached { OnOk result (slot < vec_len notes.new) }
    ensures longer { vec_len notes.old ≤ vec_len notes.new }
    ensures no_more { vec_len notes.new ≤ max (vec_len notes.old) (slot + 1) }
{
    while notes.len() <= slot {
        notes.push(None)?;
    }
    Ok(())
}

/// Makes room for notes at all the slots, so that a claim of what is offered needs no memory.
pub(crate) fn widen(
    offers: &mut Vec<Option<usize>>,
    claims: &mut Vec<Option<usize>>,
    slots: &[usize],
) -> Result<(), OutOfMemory>
    requires { vec_len offers.old ≤ vec_len claims.old }
    ensures offers { (slot : ℕ) → note_at offers.new.items slot ≡ note_at offers.old.items slot }
    ensures claims { (slot : ℕ) → note_at claims.new.items slot ≡ note_at claims.old.items slot }
    ensures room { vec_len offers.new ≤ vec_len claims.new }
    ensures reached { OnOk result (All (λ slot. slot < vec_len offers.new) slots.now) }
{
    for slot in slots {
        reach(claims, *slot)?;
        reach(offers, *slot)?;
    }
    Ok(())
}
