// What a name has in a frame and in those that enclose it. Ads of one kind have their attributes at the same places, so a name that
// is asked of many ads in turn is looked for first where the last one had it.
ghost use Rattle.std.specs.Prelude.{◌≡◌, ◌<◌, length};
ghost use Rattle.std.specs.Option.{option_map};
ghost use Rattle.ad_tree.specs.Ad.{ad_frames};
ghost use Rattle.ad_tree.specs.Enclosing.{enclosed_expr, expr_named};
ghost use Rattle.ad_tree.specs.Tree.{tree};

use ad_tree::{Ad, Expr};
use pool_text::same_folded;
use std::cell::Cell;

/// The expression that a name has in the frame alone.
pub(crate) fn own<'a>(ad: &'a Ad, frame: u32, name: &[u8]) -> Option<&'a Expr>
    requires { frame < length (ad_frames ad.now) }
    ensures { option_map (λ e. tree e.now) result ≡ expr_named (ad_frames ad.now) frame name.now }
{
    let attr = ad.position(frame, name)?;
    Some(ad.expr(frame, attr))
}

/// The expression that a name has in the frame or in those that enclose it, from the inside out.
pub(crate) fn enclosed<'a>(ad: &'a Ad, frame: u32, name: &[u8]) -> Option<&'a Expr>
    requires { frame < length (ad_frames ad.now) }
    ensures { option_map (λ e. tree e.now) result ≡ enclosed_expr (ad_frames ad.now) frame name.now }
{
    if let Some(expr) = own(ad, frame, name) {
        return Some(expr);
    }
    let parent = ad.parent(frame)?;
    enclosed(ad, parent, name)
}

/// The same, where `last` is the place at which the name stood in the ad before. The place where it stands in this one is kept there.
pub(crate) fn enclosed_near<'a>(
    ad: &'a Ad,
    frame: u32,
    name: &[u8],
    last: &Cell<u32>,
) -> Option<&'a Expr>
    requires { frame < length (ad_frames ad.now) }
    ensures { option_map (λ e. tree e.now) result ≡ enclosed_expr (ad_frames ad.now) frame name.now }
{
    if let Some(expr) = own_near(ad, frame, name, last) {
        return Some(expr);
    }
    let parent = ad.parent(frame)?;
    enclosed(ad, parent, name)
}

// The expression that a name has in the frame alone, looked for at a place first.
fn own_near<'a>(ad: &'a Ad, frame: u32, name: &[u8], last: &Cell<u32>) -> Option<&'a Expr>
    requires { frame < length (ad_frames ad.now) }
    ensures { option_map (λ e. tree e.now) result ≡ expr_named (ad_frames ad.now) frame name.now }
{
    let near = last.get();
    if near < ad.count(frame) && same_folded(ad.name(frame, near).bytes(), name) {
        return Some(ad.expr(frame, near));
    }
    let attr = ad.position(frame, name)?;
    last.set(attr);
    Some(ad.expr(frame, attr))
}
