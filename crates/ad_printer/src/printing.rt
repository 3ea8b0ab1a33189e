// The printed text of ads, expressions and values.
ghost use Rattle.std.specs.Prelude.{◌≡◌, option_map, IfOk};
ghost use Rattle.ad_tree.specs.Ad.{ad_frames};
ghost use Rattle.ad_tree.specs.Inline.{spelled_tree};
ghost use Rattle.ad_tree.specs.Tree.{tree};
ghost use Rattle.ad_value.specs.Plain.{plain};
ghost use Rattle.ad_printer.specs.Printed.{printed};
ghost use Rattle.ad_printer.specs.Values.{place_of, printed_at, printed_frame, printed_value};

use crate::value::{place_of, write_value};
use crate::writing::{write, write_frame};
use ad_tree::{Ad, Expr};
use ad_value::Value;
use pool_text::{AdPlace, OutOfMemory, Text};
use std::alloc::Global;

// Room for a text at first: most ads and most values have no more.
const AD_ROOM: usize = 4_096;

const VALUE_ROOM: usize = 64;

/// A frame of an ad as an ad literal, `[ name = expression; .. ]`, and `[ ]` where the ad has no such frame.
/// What is printed of the root of an ad that a parse gave is parsed as an equal ad.
pub fn print_ad(alloc: Global, ad: &Ad, frame: u32) -> Result<Text, OutOfMemory>
    ensures { IfOk result (λ text. text ≡ printed_frame (ad_frames ad.now) frame) }
{
    let mut out = Vec::with_capacity(alloc, AD_ROOM)?;
    write_frame(&mut out, ad, ad.frames(), frame)?;
    Text::from_vec(alloc, out)
}

/// An expression that stands in a frame of the ad, with its ad literals in place. A frame that the ad hasn't is `[ ]`.
/// What is printed of the expression of a phrase that a parse gave is parsed as an equal phrase.
pub fn print_expr(alloc: Global, ad: &Ad, expr: &Expr) -> Result<Text, OutOfMemory>
    ensures { IfOk result (λ text. text ≡ printed (spelled_tree (ad_frames ad.now) (tree expr.now))) }
{
    let mut out = Vec::with_capacity(alloc, VALUE_ROOM)?;
    write(&mut out, ad, ad.frames(), expr)?;
    Text::from_vec(alloc, out)
}

/// A value. An ad is printed as its frame, of the request for ad 0 and of the other ad for ad 1, and an ad inside a list
/// as `[...]`.
pub fn print_value(
    alloc: Global,
    v: &Value,
    request: &Ad,
    other: Option<&Ad>,
) -> Result<Text, OutOfMemory>
    ensures { IfOk result (λ text. text ≡ printed_value (ad_frames request.now) (option_map (λ ad. ad_frames ad.now) other.entry) (plain v.now)) }
{
    if let Some(place) = place_of(v) {
        return print_place(alloc, place, request, other);
    }
    let mut out = Vec::with_capacity(alloc, VALUE_ROOM)?;
    write_value(&mut out, v)?;
    Text::from_vec(alloc, out)
}

fn print_place(
    alloc: Global,
    place: AdPlace,
    request: &Ad,
    other: Option<&Ad>,
) -> Result<Text, OutOfMemory>
    ensures { IfOk result (λ text. text ≡ printed_at (ad_frames request.now) (option_map (λ ad. ad_frames ad.now) other.entry) place) }
{
    if place.ad == 0 {
        return print_ad(alloc, request, place.frame);
    }
    match other {
        Some(ad) if place.ad == 1 => print_ad(alloc, ad, place.frame),
        _ => Text::from_bytes(alloc, b"[ ]"),
    }
}
