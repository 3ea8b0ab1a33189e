// Keys: what of a request counts.
ghost use Rattle.std.specs.Prelude.{◌≡◌, ◌≤◌, [], ◌<◌, ◌&&◌, List, bytes_eq, length, option_map, slice_get, Some, IfOk, OnOk};
ghost use Rattle.ad_tree.specs.Ad.{ad_frames};
ghost use Rattle.ad_tree.specs.Frames.{attributes_at};
ghost use Rattle.ad_store.specs.Stock.{Advert};
ghost use Rattle.significant_attrs.specs.Shown.{HasReadAds, ads_in, names_in};
ghost use Rattle.job_classes.specs.Classes.{same_key};
ghost use Rattle.job_classes.specs.Keys.{arranged, digest_behind, entered, entry_of, key_from, key_of};
ghost use Rattle.job_classes.specs.Shown.{marked_entries, place_among};

use ad_printer::print_expr;
use ad_tree::{Ad, Request};
use pool_text::{OutOfMemory, Text, fold, name_digest};
use significant_attrs::Reach;
use std::alloc::Global;
use std::marker::Model;

/// What of a request counts in the matching with the ads of a store, which contracts see as a list of pairs: the folded name and
/// the printed expression of each attribute that the matching can come to, rising by name.
#[derive(Drop)]
pub struct Key {
    entries: Vec<(Text, Text)>,
    digest: u64,
    ghost told: { digest ≡ digest_behind 0 entries.items },
}

impl Model for Key {
    ghost use Rattle.std.specs.Prelude.{List, ℕ};
    ghost use Rattle.job_classes.specs.Keys.{Entry};

    ghost Value = { List Entry };

    ghost view = { λ key. key.entries.items };
}

impl Key {
    /// The key of a request: its attributes that the matching can come to, by these names.
    pub fn of(alloc: Global, reach: &Reach, request: &Request) -> Result<Key, OutOfMemory>
        ensures names { IfOk result (λ key. key ≡ key_from (names_in reach.now) (ad_frames request.now.ad)) }
        ensures ads { IfOk result (λ key. (ads : List Advert) → HasReadAds reach.now ads → key ≡ key_of (ads_in ads) (ad_frames request.now.ad)) }
    {
        let marks = reach.marks(request)?;
        Key::of_marked(alloc, &request.ad, &marks)
    }

    // The key of the attributes of the root that are marked.
    fn of_marked(alloc: Global, ad: &Ad, marks: &[bool]) -> Result<Key, OutOfMemory>
        requires { length marks.now ≡ length (attributes_at (ad_frames ad.now) 0) }
        ensures { IfOk result (λ key. key ≡ arranged [] (marked_entries (ad_frames ad.now) marks.now (attributes_at (ad_frames ad.now) 0))) }
    {
        let mut entries = Vec::new(alloc);
        for k in 0..ad.count(0) {
            if marks[k as usize] {
                enter(&mut entries, entry(alloc, ad, k)?)?;
            }
        }
        let digest = digest_of(&entries);
        Ok(Key { entries, digest })
    }

    /// Whether two keys are the same.
    pub(crate) fn is_same(&self, other: &Key) -> bool
        ensures { result ≡ same_key self.now other.now }
    {
        self.digest == other.digest && are_same(&self.entries, &other.entries)
    }
}

// A number of entries: keys of one number may differ, keys of two do.
fn digest_of(entries: &[(Text, Text)]) -> u64
    ensures { result ≡ digest_behind 0 entries.now }
{
    let mut digest: u64 = 0;
    for i in 0..entries.len() {
        digest = digest
            .wrapping_mul(31)
            .wrapping_add(name_digest(entries[i].1.bytes()));
    }
    digest
}

// The entry of attribute `k` of the root.
fn entry(alloc: Global, ad: &Ad, k: u32) -> Result<(Text, Text), OutOfMemory>
    requires { k < length (attributes_at (ad_frames ad.now) 0) }
    ensures { IfOk result (λ e. option_map (entry_of (ad_frames ad.now)) (slice_get (attributes_at (ad_frames ad.now) 0) k) ≡ Some e) }
{
    let name = fold(alloc, ad.name(0, k).bytes())?;
    let text = print_expr(alloc, ad, ad.expr(0, k))?;
    Ok((name, text))
}

// Puts an entry before the first whose name is greater.
fn enter(entries: &mut Vec<(Text, Text)>, entry: (Text, Text)) -> Result<(), OutOfMemory>
    ensures { OnOk result (entries.new.items ≡ entered entry entries.old.items) }
{
    let place = place_among(entries, entry.0.bytes());
    entries.insert(place, entry)?;
    Ok(())
}

fn place_among(entries: &[(Text, Text)], name: &[u8]) -> usize
    ensures place { result ≡ place_among name.now entries.now }
    ensures within { result ≤ length entries.now }
{
    for i in 0..entries.len() {
        if name.cmp(entries[i].0.bytes()).is_lt() {
            return i;
        }
    }
    entries.len()
}

fn are_same(a: &[(Text, Text)], b: &[(Text, Text)]) -> bool
    ensures { result ≡ same_key a.now b.now }
{
    if a.len() != b.len() {
        return false;
    }
    for i in 0..a.len() {
        if !is_same_entry(&a[i], &b[i]) {
            return false;
        }
    }
    true
}

fn is_same_entry(a: &(Text, Text), b: &(Text, Text)) -> bool
    ensures { result ≡ (bytes_eq a.now.0 b.now.0 && bytes_eq a.now.1 b.now.1) }
{
    a.0.bytes() == b.0.bytes() && a.1.bytes() == b.1.bytes()
}
