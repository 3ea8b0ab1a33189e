// The priorities of users.
ghost use Rattle.std.specs.Prelude.{◌≡◌, ◌<◌, ◌≤◌, ◌^◌, ◌++◌, ◌∷◌, [], All, IfErr, None, OnErr, OnOk, Some, false, length, map, option_map, position, slice_get};
ghost use Rattle.slot_order.specs.Names.{slot_at};
ghost use Rattle.claim_table.specs.Causes.{IsCause};
ghost use Rattle.claim_table.specs.Priorities.{ArePlaced, IsInRange, is_of, lacks_place, priority_of, setting_of, settings_limit, with_setting};

use crate::PriorityFault;
use pool_text::OutOfMemory;
use slot_order::SlotNames;
use std::alloc::Global;

const SETTINGS_LIMIT: usize = 10_000;

const DEFAULT_PRIORITY: u64 = 1_000;

/// A user with the priority that is set.
#[derive(Drop)]
pub struct UserPriority {
    user: Vec<u8>,
    number: u64,
}

/// The priorities that are set, each for a user. A lower number is better; a user for whom none is set has 1,000.
///
/// A user is found by name in few steps, whatever the names are, which takes no memory.
#[derive(Drop)]
pub struct Priorities {
    alloc: Global,
    // The place of each user among the settings.
    places: SlotNames,
    settings: Vec<UserPriority>,
    ghost placed: { ArePlaced (slot_at places) (map setting_of settings.items) },
    ghost within: { All IsInRange (map setting_of settings.items) },
    ghost few: { length (map setting_of settings.items) ≤ settings_limit },
}

impl Priorities {
    ghost use Rattle.claim_table.specs.Settings.{settings_of};

    /// No priority is set, which takes no memory yet.
    pub fn new(alloc: Global) -> Priorities
        ensures { settings_of result ≡ [] }
    {
        Priorities {
            alloc,
            places: SlotNames::new(alloc),
            settings: Vec::new(alloc),
        }
    }

    /// Sets the priority of a user, from 1 to 1,000,000, in the place of one that was set before.
    ///
    /// `Full` exactly where the user is new and 10,000 users have a priority that is set. Where it isn't set nothing
    /// changes.
    pub fn set(&mut self, user: &[u8], n: u64) -> Result<(), PriorityFault>
        requires least { 1 ≤ n }
        requires most { n ≤ 10 ^ 6 }
        ensures ok { OnOk result (settings_of self.new ≡ with_setting (record { user = user.now; number = n }) (settings_of self.old)) }
        ensures room { OnOk result (lacks_place user.now (settings_of self.old) ≡ false) }
        ensures cause { IfErr result (λ fault. IsCause fault (lacks_place user.now (settings_of self.old))) }
        ensures err { OnErr result (settings_of self.new ≡ settings_of self.old) }
    {
        if let Some(place) = self.places.get(user) {
            self.settings[place].number = n;
            return Ok(());
        }
        if self.settings.len() >= SETTINGS_LIMIT {
            return Err(PriorityFault::Full);
        }
        match self.add(user, n) {
            Ok(()) => Ok(()),
            Err(OutOfMemory) => Err(PriorityFault::OutOfMemory),
        }
    }

    // Sets the priority of a user who has none.
    fn add(&mut self, user: &[u8], n: u64) -> Result<(), OutOfMemory>
        requires least { 1 ≤ n }
        requires most { n ≤ 10 ^ 6 }
        requires new { position (is_of user.now) (settings_of self.old) ≡ None }
        requires few { length (settings_of self.old) < settings_limit }
        ensures ok { OnOk result (settings_of self.new ≡ settings_of self.old ++ (record { user = user.now; number = n }) ∷ []) }
        ensures err { OnErr result (settings_of self.new ≡ settings_of self.old) }
    {
        let name = Vec::from_slice(self.alloc, user)?;
        self.settings.reserve(1)?;
        let place = self.settings.len();
        self.places.insert(self.alloc, user, place)?;
        self.settings.push_reserved(UserPriority {
            user: name,
            number: n,
        });
        Ok(())
    }

    /// How many users have a priority that is set.
    pub fn len(&self) -> usize
        ensures len { result ≡ length (settings_of self.now) }
        ensures few { result ≤ settings_limit }
    {
        self.settings.len()
    }

    /// User `i` of those whose priority is set, counted from 0 in the order in which they were first set.
    pub fn user(&self, i: usize) -> &[u8]
        requires { i < length (settings_of self.now) }
        ensures { option_map (λ setting. setting.user) (slice_get (settings_of self.now) i) ≡ Some result.now }
    {
        self.settings[i].user.as_slice()
    }

    /// The priority of a user, 1,000 where none is set.
    pub fn get(&self, user: &[u8]) -> u64
        ensures number { result ≡ priority_of user.now (settings_of self.now) }
        ensures least { 1 ≤ result }
        ensures most { result ≤ 10 ^ 6 }
    {
        match self.places.get(user) {
            Some(place) => self.settings[place].number,
            None => DEFAULT_PRIORITY,
        }
    }
}
