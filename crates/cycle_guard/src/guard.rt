// A finite map from attributes to what is known of them.
ghost use Rattle.std.specs.Prelude.{◌≡◌, ℕ, OnOk, OnErr, IfOk, IfSome, IsSome, None, Some, cond, length, position, slice_get, slice_set, ◌<◌};
ghost use Rattle.std.specs.Option.{option_copied};
ghost use Rattle.pool_text.specs.declared.language.Pos.{Pos};
ghost use Rattle.ad_value.specs.Plain.{plain};
ghost use Rattle.cycle_guard.specs.Sights.{same_pos, sight};
ghost use Rattle.cycle_guard.specs.Shown.{entry_of, key_of, other_of, sight_of_kept};

use ad_value::Value;
use pool_text::{OutOfMemory, Pos};
use smallvec::SmallVec;
use std::alloc::Global;
use std::boxed::Box;
use std::collections::HashMap;

/// Most evaluations enter no more attributes than these, and then the guard takes no memory.
const INLINE: usize = 2;

/// So many attributes are looked through in turn, in fewer steps than a hash takes. Few evaluations enter more.
const FIRST: usize = 64;

/// What is known of an attribute: nothing yet, that it was entered, or its value with the least number of references that it
/// needs, the one to itself included.
#[derive(Clone, Copy)]
pub enum Seen<'a> {
    Unseen,
    Pending,
    Done(&'a Value, u32),
}

#[derive(Drop)]
struct Kept {
    value: Value,
    height: u32,
}

// An attribute that was entered, with its value once that is known.
#[derive(Drop)]
struct Entry {
    pos: Pos,
    kept: Option<Kept>,
}

impl Entry {
    // Whether it is of this attribute. Most entries are of others of the same frame, so the attribute's number is compared first.
    fn is_of(&self, pos: Pos) -> bool
        ensures { result ≡ same_pos self.now.pos pos }
    {
        self.pos.attr == pos.attr && self.pos.ad == pos.ad && self.pos.frame == pos.frame
    }
}

// What fills the places that aren't used yet.
impl Default for Entry {
    fn default() -> Entry {
        Entry {
            pos: Pos {
                ad: 0,
                frame: 0,
                attr: 0,
            },
            kept: None,
        }
    }
}

/// The attributes that an evaluation has entered, with what is known of them. Contracts see a sight for each attribute.
#[derive(Drop)]
pub struct Guard {
    alloc: Global,
    first: SmallVec<Entry, INLINE>,
    // Few guards have any, so their map stands apart and isn't made before the first.
    others: Option<Box<Others>>,
}

#[derive(Drop)]
struct Others {
    kept: HashMap<(u32, u32, u32), Option<Kept>>,
}

impl Guard {
    ghost use Rattle.cycle_guard.specs.Sights.{done, pending, unseen};
    ghost use Rattle.cycle_guard.specs.Shown.{sight_of};

    /// Every attribute is unseen. This takes no memory yet.
    pub fn new(alloc: Global) -> Guard
        ensures { (q : Pos) → sight_of result q ≡ unseen }
    {
        Guard {
            alloc,
            first: SmallVec::new(alloc),
            others: None,
        }
    }

    /// What is known of an attribute.
    pub fn state(&self, pos: Pos) -> Seen<'_>
        ensures { sight result ≡ sight_of self.now pos }
    {
        match entry_at(self.first.as_slice(), pos) {
            Some(kept) => seen_of(kept),
            None => match other_at(&self.others, pos) {
                Some(kept) => seen_of(kept),
                None => Seen::Unseen,
            },
        }
    }

    /// Enters an attribute, which becomes pending.
    pub fn enter(&mut self, pos: Pos) -> Result<(), OutOfMemory>
        requires { sight_of self.old pos ≡ unseen }
        ensures ok { OnOk result ((q : Pos) → sight_of self.new q ≡ cond (same_pos pos q) pending (sight_of self.old q)) }
        ensures err { OnErr result ((q : Pos) → sight_of self.new q ≡ sight_of self.old q) }
    {
        if self.first.len() < FIRST {
            self.first.push(Entry { pos, kept: None })?;
        } else {
            enter_other(self.alloc, &mut self.others, pos)?;
        }
        Ok(())
    }

    /// Keeps the value of a pending attribute with the number of references that it needs. This takes no memory.
    pub fn finish(&mut self, pos: Pos, v: Value, height: u32)
        requires { sight_of self.old pos ≡ pending }
        ensures { (q : Pos) → sight_of self.new q ≡ cond (same_pos pos q) (done (plain v) height) (sight_of self.old q) }
    {
        let kept = Kept { value: v, height };
        match place_of(self.first.as_slice(), pos) {
            Some(place) => keep(self.first.as_mut_slice(), place, kept),
            None => keep_other(&mut self.others, pos, kept),
        }
    }
}

// The key of an attribute in the map.
fn key_of(pos: Pos) -> (u32, u32, u32)
    ensures { result ≡ key_of pos }
{
    (pos.ad, pos.frame, pos.attr)
}

// Where an attribute stands among entries.
fn place_of(entries: &[Entry], pos: Pos) -> Option<usize>
    ensures { result ≡ position (λ e. same_pos e.pos pos) entries.now }
{
    entries.iter().position(|entry| entry.is_of(pos))
}

// What entries have of an attribute.
fn entry_at(entries: &[Entry], pos: Pos) -> Option<&Option<Kept>>
    ensures { option_copied result ≡ entry_of entries.now pos }
{
    match place_of(entries, pos) {
        Some(place) => Some(&entries[place].kept),
        None => None,
    }
}

// What the map has of an attribute, if there is one.
fn other_at(others: &Option<Box<Others>>, pos: Pos) -> Option<&Option<Kept>>
    ensures { option_copied result ≡ other_of others.now pos }
{
    match others {
        Some(others) => others.kept.get(&key_of(pos)),
        None => None,
    }
}

// Enters an attribute in the map, which is made for the first of them.
#[cold]
#[inline(never)]
fn enter_other(alloc: Global, others: &mut Option<Box<Others>>, pos: Pos) -> Result<(), OutOfMemory>
    ensures ok { OnOk result ((q : Pos) → other_of others.new q ≡ cond (same_pos pos q) (Some None) (other_of others.old q)) }
    ensures err { OnErr result ((q : Pos) → other_of others.new q ≡ other_of others.old q) }
{
    match others {
        Some(others) => {
            others.kept.insert(key_of(pos), None)?;
        }
        None => *others = Some(first_other(alloc, pos)?),
    }
    Ok(())
}

// A map with one attribute, which is pending.
fn first_other(alloc: Global, pos: Pos) -> Result<Box<Others>, OutOfMemory>
    ensures { IfOk result (λ others. (q : Pos) → other_of (Some others) q ≡ cond (same_pos pos q) (Some None) None) }
{
    let mut kept = HashMap::new(alloc);
    kept.insert(key_of(pos), None)?;
    Ok(Box::new(alloc, Others { kept })?)
}

// Keeps the value of an attribute in the map.
#[cold]
#[inline(never)]
fn keep_other(others: &mut Option<Box<Others>>, pos: Pos, kept: Kept)
    requires { IsSome (other_of others.old pos) }
    ensures { (q : Pos) → other_of others.new q ≡ cond (same_pos pos q) (Some (Some kept)) (other_of others.old q) }
{
    if let Some(others) = others {
        if let Some(old) = others.kept.get_mut(&key_of(pos)) {
            *old = Some(kept);
        }
    }
}

// What is known of an attribute that was entered.
fn seen_of(kept: &Option<Kept>) -> Seen<'_>
    ensures { sight result ≡ sight_of_kept kept.now }
{
    match kept {
        Some(kept) => Seen::Done(&kept.value, kept.height),
        None => Seen::Pending,
    }
}

// Keeps the value of an entry.
fn keep(entries: &mut [Entry], place: usize, kept: Kept)
    requires { place < length entries.old }
    ensures { IfSome (slice_get entries.old place) (λ e. entries.new ≡ slice_set entries.old place (record { pos = e.pos; kept = Some kept })) }
{
    entries[place].kept = Some(kept);
}
