// The names by which an expression of a request may look for attributes of the request's root. `turns` bounds the descent
// through frames; an ad's number of frames is enough of them.
ghost use Rattle.std.specs.Prelude.{◌≡◌, ◌<◌, ◌++◌, length, OnOk};
ghost use Rattle.ad_tree.specs.Ad.{ad_frames};
ghost use Rattle.ad_tree.specs.Frames.{attributes_at};
ghost use Rattle.ad_tree.specs.Inline.{defs_of, inlined, inlined_all, inside};
ghost use Rattle.ad_tree.specs.Tree.{pack, three, tree, trees, two};
ghost use Rattle.significant_attrs.specs.Names.{needed_in, needed_in_all, needed_in_defs};

use crate::asking::add;
use ad_tree::{Ad, Expr, Exprs, Scope};
use pool_text::{Names, OutOfMemory};

/// Adds those of an expression that stands in a frame of the ad.
#[cycle(needing)]
pub(crate) fn add_needed(
    names: &mut Names,
    ad: &Ad,
    turns: u32,
    expr: &Expr,
) -> Result<(), OutOfMemory>
    ensures { OnOk result (names.new ≡ names.old ++ needed_in (inlined (inside (ad_frames ad.now) turns) (tree expr.now))) }
{
    match expr {
        Expr::Literal(_) => Ok(()),
        Expr::Name(Scope::Target, _) => Ok(()),
        Expr::Name(_, name) => add(names, name),
        Expr::Unary(_, a) | Expr::Select(a, _) => add_needed(names, ad, turns, a),
        Expr::Binary(_, a, b) | Expr::Subscript(a, b) => add_of_two(names, ad, turns, a, b),
        Expr::Cond(a, b, c) => add_of_three(names, ad, turns, a, b, c),
        Expr::And(list) | Expr::Or(list) | Expr::List(list) => add_of_all(names, ad, turns, list),
        Expr::Call(_, list) => add_of_all(names, ad, turns, list),
        Expr::Frame(frame) => add_of_frame(names, ad, turns, *frame),
    }
}

#[cycle(needing)]
fn add_of_two(names: &mut Names, ad: &Ad, turns: u32, a: &Expr, b: &Expr) -> Result<(), OutOfMemory>
    ensures { OnOk result (names.new ≡ names.old ++ needed_in_all (inlined_all (inside (ad_frames ad.now) turns) (two (tree a.now) (tree b.now)))) }
{
    add_needed(names, ad, turns, a)?;
    add_needed(names, ad, turns, b)
}

#[cycle(needing)]
fn add_of_three(
    names: &mut Names,
    ad: &Ad,
    turns: u32,
    a: &Expr,
    b: &Expr,
    c: &Expr,
) -> Result<(), OutOfMemory>
    ensures { OnOk result (names.new
        ≡ names.old ++ needed_in_all (inlined_all (inside (ad_frames ad.now) turns) (three (tree a.now) (tree b.now) (tree c.now)))) }
{
    add_needed(names, ad, turns, a)?;
    add_of_two(names, ad, turns, b, c)
}

// Adds those of several expressions.
#[cycle(needing)]
fn add_of_all(names: &mut Names, ad: &Ad, turns: u32, list: &Exprs) -> Result<(), OutOfMemory>
    ensures { OnOk result (names.new ≡ names.old ++ needed_in_all (inlined_all (inside (ad_frames ad.now) turns) (pack (trees list.now)))) }
{
    for i in 0..list.len() {
        add_needed(names, ad, turns, list.at(i))?;
    }
    Ok(())
}

// Adds those of an ad literal: none where no turns are left or there is no such frame.
#[cycle(needing)]
fn add_of_frame(names: &mut Names, ad: &Ad, turns: u32, frame: u32) -> Result<(), OutOfMemory>
    ensures { OnOk result (names.new ≡ names.old ++ needed_in_defs (inside (ad_frames ad.now) turns frame)) }
{
    if turns == 0 || frame >= ad.frames() {
        return Ok(());
    }
    add_of_definitions(names, ad, turns - 1, frame)
}

#[cycle(needing)]
fn add_of_definitions(names: &mut Names, ad: &Ad, turns: u32, frame: u32) -> Result<(), OutOfMemory>
    requires { frame < length (ad_frames ad.now) }
    ensures { OnOk result (names.new ≡ names.old
        ++ needed_in_defs (defs_of (inside (ad_frames ad.now) turns) (attributes_at (ad_frames ad.now) frame))) }
{
    for attr in 0..ad.count(frame) {
        add_needed(names, ad, turns, ad.expr(frame, attr))?;
    }
    Ok(())
}
