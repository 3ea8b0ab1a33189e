// The ports of a gang, as the root of its ad lists them.
ghost use Rattle.std.specs.Prelude.{◌≡◌, ◌<◌, All, codes, length, map, option_map, IfErr, IfOk, IfSome, None, Some};
ghost use Rattle.std.specs.List.{list_any};
ghost use Rattle.std.specs.Option.{option_and_then};
ghost use Rattle.ad_tree.specs.Ad.{ad_frames};
ghost use Rattle.ad_tree.specs.Enclosing.{expr_named};
ghost use Rattle.ad_tree.specs.Names.{are_apart, same_name};
ghost use Rattle.ad_tree.specs.Requests.{ArePorts};
ghost use Rattle.ad_tree.specs.Tree.{pack, tree, trees};
ghost use Rattle.gang_ports.specs.Ports.{are_ports, label_of, list_in, port_of, ports_of, ports_of_all, some_bytes};
ghost use Rattle.gang_ports.specs.declared.ports.PortsFault.TheVariants as faults;

use ad_tree::{Ad, Expr, Exprs, Port, Ports, Scope};
use pool_text::{Lit, OutOfMemory, Text, same_folded};
use std::alloc::Global;
use std::convert::AsSlice;
use thiserror::Error;

/// A gang has so many ports at most.
const MOST_PORTS: usize = 8;

/// Why an ad gives no ports.
#[derive(Clone, Copy, Debug, PartialEq, Eq, Error)]
pub enum PortsFault {
    /// The root has no attribute `Ports` of the form that a gang has.
    #[error("bad ports")]
    Bad,
    /// The system gave no memory.
    #[error("out of memory")]
    OutOfMemory,
}

impl From<OutOfMemory> for PortsFault {
    ghost from_gives = { λ _ fault. fault ≡ faults.OutOfMemory };

    fn from(_: OutOfMemory) -> Self {
        PortsFault::OutOfMemory
    }
}

/// The ports of a gang (Raman, Livny and Solomon 2003): the root's attribute `Ports` is a list of one ad literal to eight,
/// each with an attribute `Label` that is a string of some bytes or a bare name, and no two labels are equal after folding.
///
/// `Bad` exactly where the ad has no ports of this form. They are ports that a `Request` of the ad can have.
pub fn read_ports(alloc: Global, ad: &Ad) -> Result<Ports, PortsFault>
    ensures ports { IfOk result (λ ports. ports_of (ad_frames ad.now) ≡ Some ports) }
    ensures are_ports { IfOk result (ArePorts (ad_frames ad.now)) }
    ensures bad { IfErr result (λ fault. fault ≡ faults.Bad → ports_of (ad_frames ad.now) ≡ None) }
{
    let Some(items) = listed(ad) else {
        return Err(PortsFault::Bad);
    };
    let Some(ports) = ports_in(alloc, ad, items)? else {
        return Err(PortsFault::Bad);
    };
    if !are_ports(ports.as_slice()) {
        return Err(PortsFault::Bad);
    }
    Ok(ports)
}

// The list that the root's attribute `Ports` is.
fn listed<'a>(ad: &'a Ad) -> Option<&'a Exprs>
    ensures { option_map (λ items. pack (trees items.now)) result ≡ option_and_then list_in (expr_named (ad_frames ad.now) 0 (codes "Ports")) }
{
    match own(ad, 0, b"Ports") {
        Some(Expr::List(items)) => Some(items),
        _ => None,
    }
}

// The ports that the ad literals of a list open, where each opens one.
fn ports_in(alloc: Global, ad: &Ad, items: &Exprs) -> Result<Option<Ports>, OutOfMemory>
    ensures ports { IfOk result (λ ports. ports ≡ ports_of_all (ad_frames ad.now) (pack (trees items.now))) }
    ensures within { IfOk result (λ ports. IfSome ports (All (λ port. port.frame < length (ad_frames ad.now)))) }
{
    let mut ports = Ports::new(alloc);
    for i in 0..items.len() {
        let Some(port) = port_of(ad, items.at(i))? else {
            return Ok(None);
        };
        ports.push(port)?;
    }
    Ok(Some(ports))
}

// The port that an ad literal opens.
fn port_of(ad: &Ad, expr: &Expr) -> Result<Option<Port>, OutOfMemory>
    ensures port { IfOk result (λ port. port ≡ port_of (ad_frames ad.now) (tree expr.now)) }
    ensures within { IfOk result (λ port. IfSome port (λ p. p.frame < length (ad_frames ad.now))) }
{
    let Expr::Frame(frame) = expr else {
        return Ok(None);
    };
    let Some(spelled) = own(ad, *frame, b"Label") else {
        return Ok(None);
    };
    let Some(label) = label_of(spelled) else {
        return Ok(None);
    };
    Ok(Some(Port {
        label: label.copy()?,
        frame: *frame,
    }))
}

// The expression that a name has in the frame alone, where there is such a frame.
fn own<'a>(ad: &'a Ad, frame: u32, name: &[u8]) -> Option<&'a Expr>
    ensures expr { option_map (λ e. tree e.now) result ≡ expr_named (ad_frames ad.now) frame name.now }
    ensures within { IfSome result (λ e. frame < length (ad_frames ad.now)) }
{
    if frame >= ad.frames() {
        return None;
    }
    let attr = ad.position(frame, name)?;
    Some(ad.expr(frame, attr))
}

// The label that an expression spells.
fn label_of<'a>(expr: &'a Expr) -> Option<&'a Text>
    ensures { option_map (λ label. label.now) result ≡ label_of (tree expr.now) }
{
    match expr {
        Expr::Literal(Lit::Str(text)) => some_bytes(text),
        Expr::Name(Scope::Bare, name) => Some(name),
        _ => None,
    }
}

// The text, where it has some bytes.
fn some_bytes<'a>(text: &'a Text) -> Option<&'a Text>
    ensures { option_map (λ t. t.now) result ≡ some_bytes text.now }
{
    if text.bytes().len() == 0 {
        None
    } else {
        Some(text)
    }
}

// Whether these are as many ports as a gang has, of which no two have equal labels.
fn are_ports(ports: &[Port]) -> bool
    ensures { result ≡ are_ports ports.now }
{
    !ports.is_empty() && ports.len() <= MOST_PORTS && are_apart(ports)
}

// Whether no two of the ports have equal labels.
fn are_apart(ports: &[Port]) -> bool
    ensures { result ≡ are_apart (map (λ port. port.label) ports.now) }
{
    for i in 0..ports.len() {
        if has_label(&ports[i + 1..], ports[i].label.bytes()) {
            return false;
        }
    }
    true
}

// Whether one of the ports has the name as its label.
fn has_label(ports: &[Port], name: &[u8]) -> bool
    ensures { result ≡ list_any (λ port. same_name port.label name.now) ports.now }
{
    ports.iter().any(|port| is_label(port, name))
}

// Whether the port has the name as its label.
fn is_label(port: &Port, name: &[u8]) -> bool
    ensures { result ≡ same_name port.now.label name.now }
{
    same_folded(port.label.bytes(), name)
}
