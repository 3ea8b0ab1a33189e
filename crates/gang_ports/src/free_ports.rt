// Which ports are free: their docks don't depend on the resources docked to the ports before them.
ghost use Rattle.std.specs.Prelude.{◌≡◌, ◌<◌, length};
ghost use Rattle.std.specs.List.{list_any};
ghost use Rattle.ad_tree.specs.Ad.{ad_frames};
ghost use Rattle.ad_tree.specs.Frames.{attributes_at};
ghost use Rattle.ad_tree.specs.Tree.{pack, tree, trees};
ghost use Rattle.gang_ports.specs.FreePorts.{any_refers, is_free_port, is_referred, refers};

use ad_tree::{Ad, Expr, Exprs, Port, Request, Scope};
use pool_text::same_folded;
use std::convert::AsSlice;

/// Whether the port at place `i`, counted from 0, is free: no bare name anywhere in the request is the label of a port before
/// it. A label that is spelled as a bare name is one too.
#[tactic(auto, unfolding(crate::specs::FreePorts::is_free_port))]
pub fn is_free_port(request: &Request, i: usize) -> bool
    requires { i < length request.now.ports }
    ensures { result ≡ is_free_port (ad_frames request.now.ad) request.now.ports i }
{
    !is_one_referred(&request.ad, &request.ports.as_slice()[..i])
}

// Whether a bare name anywhere in the ad is the label of one of the ports.
fn is_one_referred(ad: &Ad, ports: &[Port]) -> bool
    ensures { result ≡ list_any (λ port. is_referred (ad_frames ad.now) port.label) ports.now }
{
    ports.iter().any(|port| is_referred(ad, port.label.bytes()))
}

// Whether a bare name anywhere in the ad is the label.
fn is_referred(ad: &Ad, label: &[u8]) -> bool
    ensures { result ≡ is_referred (ad_frames ad.now) label.now }
{
    for frame in 0..ad.frames() {
        if is_referred_in(ad, frame, label) {
            return true;
        }
    }
    false
}

// Whether a bare name in an expression of the frame is the label.
fn is_referred_in(ad: &Ad, frame: u32, label: &[u8]) -> bool
    requires { frame < length (ad_frames ad.now) }
    ensures { result ≡ list_any (λ attribute. refers label.now attribute.1) (attributes_at (ad_frames ad.now) frame) }
{
    for attr in 0..ad.count(frame) {
        if refers(label, ad.expr(frame, attr)) {
            return true;
        }
    }
    false
}

// Whether a bare name in the expression is the label.
#[cycle(referring)]
fn refers(label: &[u8], expr: &Expr) -> bool
    ensures { result ≡ refers label.now (tree expr.now) }
{
    match expr {
        Expr::Literal(_) | Expr::Frame(_) => false,
        Expr::Name(Scope::Bare, name) => same_folded(name.bytes(), label),
        Expr::Name(_, _) => false,
        Expr::Unary(_, a) | Expr::Select(a, _) => refers(label, a),
        Expr::Binary(_, a, b) | Expr::Subscript(a, b) => refers(label, a) || refers(label, b),
        Expr::Cond(a, b, c) => refers(label, a) || refers(label, b) || refers(label, c),
        Expr::And(list) | Expr::Or(list) | Expr::List(list) => any_refers(label, list),
        Expr::Call(_, list) => any_refers(label, list),
    }
}

// The same of several expressions.
#[cycle(referring)]
fn any_refers(label: &[u8], list: &Exprs) -> bool
    ensures { result ≡ any_refers label.now (pack (trees list.now)) }
{
    for i in 0..list.len() {
        if refers(label, list.at(i)) {
            return true;
        }
    }
    false
}
