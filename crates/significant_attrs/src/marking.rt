// The attributes of a request's root that are reached.
ghost use Rattle.std.specs.Prelude.{◌≡◌, ◌<◌, [], false, length, map, IfOk, OnOk, slice_get, Some, ℕ, List};
ghost use Rattle.ad_tree.specs.Ad.{ad_frames};
ghost use Rattle.ad_tree.specs.Frames.{attributes_at};
ghost use Rattle.significant_attrs.specs.Marking.{first_attributes, marks_after, names_after, reached_marks};
ghost use Rattle.significant_attrs.specs.Shown.{names_in};

use crate::Reach;
use crate::asking::add;
use crate::needing::add_needed;
use ad_tree::Ad;
use pool_text::{Names, OutOfMemory};
use std::alloc::Global;

/// A mark for each attribute of the root, whether it is reached. Each name of the row has its turn once.
pub(crate) fn marks_of(alloc: Global, reach: &Reach, ad: &Ad) -> Result<Vec<bool>, OutOfMemory>
    ensures { IfOk result (λ marks. marks.items ≡ reached_marks (names_in reach.now) (ad_frames ad.now)) }
{
    let mut names = first_names(alloc, reach, ad)?;
    let mut marks = vec![in alloc; false; ad.count(0) as usize]?;
    let mut i = 0;
    while i < names.len() {
        visit(&mut names, &mut marks, ad, i)?;
        i += 1;
    }
    Ok(marks)
}

// The names of the root that are among the first.
fn first_names(alloc: Global, reach: &Reach, ad: &Ad) -> Result<Names, OutOfMemory>
    ensures { IfOk result (λ names. names ≡ first_attributes (names_in reach.now) (attributes_at (ad_frames ad.now) 0)) }
{
    let mut names = Names::new(alloc);
    for k in 0..ad.count(0) {
        let name = ad.name(0, k);
        if reach.has(name.bytes())? {
            add(&mut names, name)?;
        }
    }
    Ok(names)
}

// The turn of name `i`: an attribute of that name without a mark gets it, and what it needs waits for its turn.
fn visit(names: &mut Names, marks: &mut Vec<bool>, ad: &Ad, i: usize) -> Result<(), OutOfMemory>
    requires name { i < length names.old }
    requires marks { length marks.old.items ≡ length (attributes_at (ad_frames ad.now) 0) }
    ensures marks { OnOk result ((y : List ℕ) → slice_get names.old i ≡ Some y → marks.new.items ≡ marks_after (ad_frames ad.now) y marks.old.items) }
    ensures names { OnOk result ((y : List ℕ) → slice_get names.old i ≡ Some y → names.new ≡ names_after (ad_frames ad.now) y marks.old.items names.old) }
{
    let Some(k) = ad.position(0, names.at(i).bytes()) else {
        return Ok(());
    };
    if marks[k as usize] {
        return Ok(());
    }
    marks[k as usize] = true;
    add_needed(names, ad, ad.frames(), ad.expr(0, k))
}
