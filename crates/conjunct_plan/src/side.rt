// What stands on a side of a test.
ghost use Rattle.std.specs.Prelude.{◌≡◌, ◌<◌, length, map};
ghost use Rattle.std.specs.Option.{option_map};
ghost use Rattle.ad_tree.specs.Ad.{ad_frames};
ghost use Rattle.ad_tree.specs.Names.{has_name, same_name};
ghost use Rattle.ad_tree.specs.Tree.{tree};
ghost use Rattle.conjunct_plan.specs.Seen.{side_seen};
ghost use Rattle.conjunct_plan.specs.Tests.{bare_side, labels_of, name_of, own_side, side_of};

use crate::enclosed::{enclosed, own};
use ad_tree::{Ad, Expr, Port, Ports, Scope};
use pool_text::{Lit, Text, same_folded};
use std::convert::AsSlice;

/// An attribute of the other side, a literal, or anything else.
#[derive(Clone, Copy)]
pub(crate) enum Side<'a> {
    Named(&'a Text),
    Constant(&'a Lit),
    Neither,
}

/// What an expression is that stands in a frame of an ad with these ports.
pub(crate) fn side_of<'a>(ad: &'a Ad, frame: u32, ports: &Ports, expr: &'a Expr) -> Side<'a>
    requires { frame < length (ad_frames ad.now) }
    ensures { side_seen result ≡ side_of (ad_frames ad.now) frame (labels_of ports.now) (tree expr.now) }
{
    match expr {
        Expr::Literal(lit) => Side::Constant(lit),
        Expr::Name(Scope::Target, name) => Side::Named(name),
        Expr::Name(Scope::My, name) => own_side(own(ad, 0, name.bytes())),
        Expr::Name(Scope::Bare, name) => {
            bare_side(ports, name, enclosed(ad, frame, name.bytes()))
        }
        _ => Side::Neither,
    }
}

/// The name of the attribute of the other side that an expression asks for alone, if it does, in a frame of an ad with these
/// ports.
pub fn asked_by<'a>(ad: &'a Ad, frame: u32, ports: &Ports, expr: &'a Expr) -> Option<&'a Text>
    requires { frame < length (ad_frames ad.now) }
    ensures { option_map (λ name. name.now) result ≡ name_of (side_of (ad_frames ad.now) frame (labels_of ports.now) (tree expr.now)) }
{
    match side_of(ad, frame, ports, expr) {
        Side::Named(name) => Some(name),
        _ => None,
    }
}

// An own attribute whose expression is a literal.
fn own_side<'a>(found: Option<&'a Expr>) -> Side<'a>
    ensures { side_seen result ≡ own_side (option_map (λ e. tree e.now) found.entry) }
{
    match found {
        Some(Expr::Literal(lit)) => Side::Constant(lit),
        _ => Side::Neither,
    }
}

// A bare name, by what it has in the own frames.
fn bare_side<'a>(ports: &Ports, name: &'a Text, found: Option<&'a Expr>) -> Side<'a>
    ensures { side_seen result ≡ bare_side (labels_of ports.now) name.now (option_map (λ e. tree e.now) found.entry) }
{
    if found.is_some() {
        return own_side(found);
    }
    if has_label(ports.as_slice(), name.bytes()) {
        return Side::Neither;
    }
    Side::Named(name)
}

// Whether one of the ports has the name as its label.
fn has_label(ports: &[Port], name: &[u8]) -> bool
    ensures { result ≡ has_name name.now (labels_of ports.now) }
{
    for i in 0..ports.len() {
        if is_label(&ports[i], name) {
            return true;
        }
    }
    false
}

// Whether the port has the name as its label.
fn is_label(port: &Port, name: &[u8]) -> bool
    ensures { result ≡ same_name port.now.label name.now }
{
    same_folded(port.label.bytes(), name)
}
