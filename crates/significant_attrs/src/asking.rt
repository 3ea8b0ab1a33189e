// The names by which the expressions of an ad may look for attributes at the other side.
ghost use Rattle.std.specs.Prelude.{◌≡◌, ◌<◌, ◌++◌, ◌∷◌, [], length, OnOk};
ghost use Rattle.ad_tree.specs.Ad.{ad_frames};
ghost use Rattle.ad_tree.specs.Frames.{attributes_at};
ghost use Rattle.ad_tree.specs.Tree.{pack, three, tree, trees, two};
ghost use Rattle.significant_attrs.specs.Names.{asked_by, asked_in, asked_in_all, asked_in_attributes};

use ad_tree::{Ad, Expr, Exprs, Scope};
use pool_text::{Names, OutOfMemory, Text};

/// Adds those of all frames of an ad.
pub(crate) fn add_asked(names: &mut Names, ad: &Ad) -> Result<(), OutOfMemory>
    ensures { OnOk result (names.new ≡ names.old ++ asked_by (ad_frames ad.now)) }
{
    for frame in 0..ad.frames() {
        add_of_frame(names, ad, frame)?;
    }
    Ok(())
}

// Adds those of one frame.
fn add_of_frame(names: &mut Names, ad: &Ad, frame: u32) -> Result<(), OutOfMemory>
    requires { frame < length (ad_frames ad.now) }
    ensures { OnOk result (names.new ≡ names.old ++ asked_in_attributes (attributes_at (ad_frames ad.now) frame)) }
{
    for attr in 0..ad.count(frame) {
        add_of(names, ad.expr(frame, attr))?;
    }
    Ok(())
}

/// Adds a copy of a name.
pub(crate) fn add(names: &mut Names, name: &Text) -> Result<(), OutOfMemory>
    ensures { OnOk result (names.new ≡ names.old ++ name.now ∷ []) }
{
    names.push(name.copy()?)?;
    Ok(())
}

// Adds those of an expression.
#[cycle(asking)]
fn add_of(names: &mut Names, expr: &Expr) -> Result<(), OutOfMemory>
    ensures { OnOk result (names.new ≡ names.old ++ asked_in (tree expr.now)) }
{
    match expr {
        Expr::Literal(_) | Expr::Frame(_) => Ok(()),
        Expr::Name(Scope::My, _) => Ok(()),
        Expr::Name(_, name) => add(names, name),
        Expr::Unary(_, a) | Expr::Select(a, _) => add_of(names, a),
        Expr::Binary(_, a, b) | Expr::Subscript(a, b) => add_of_two(names, a, b),
        Expr::Cond(a, b, c) => add_of_three(names, a, b, c),
        Expr::And(list) | Expr::Or(list) | Expr::List(list) => add_of_all(names, list),
        Expr::Call(_, list) => add_of_all(names, list),
    }
}

#[cycle(asking)]
fn add_of_two(names: &mut Names, a: &Expr, b: &Expr) -> Result<(), OutOfMemory>
    ensures { OnOk result (names.new ≡ names.old ++ asked_in_all (two (tree a.now) (tree b.now))) }
{
    add_of(names, a)?;
    add_of(names, b)
}

#[cycle(asking)]
fn add_of_three(names: &mut Names, a: &Expr, b: &Expr, c: &Expr) -> Result<(), OutOfMemory>
    ensures { OnOk result (names.new ≡ names.old ++ asked_in_all (three (tree a.now) (tree b.now) (tree c.now))) }
{
    add_of(names, a)?;
    add_of_two(names, b, c)
}

// Adds those of several expressions.
#[cycle(asking)]
fn add_of_all(names: &mut Names, list: &Exprs) -> Result<(), OutOfMemory>
    ensures { OnOk result (names.new ≡ names.old ++ asked_in_all (pack (trees list.now))) }
{
    for i in 0..list.len() {
        add_of(names, list.at(i))?;
    }
    Ok(())
}
