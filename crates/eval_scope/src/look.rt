// What a name finds: the first of its candidates that has it.
ghost use Rattle.std.specs.Prelude.{◌≡◌};
ghost use Rattle.eval_scope.specs.Look.{IsThere, enclosing, find, first_found, found_at, in_frame, labels, targets};
ghost use Rattle.eval_scope.specs.Shown.{world_of};

use crate::{Found, World};
use ad_tree::Scope;
use pool_text::AdPlace;

impl<'a> World<'a> {
    /// What a name finds from an expression that stands in the frame `at`; names ignore case.
    ///
    /// A bare name is looked up in that frame and in those that enclose it, then, from the request, among the labels of the
    /// docked ports, then on the other side. `My` looks in the root of the own ad alone, and `Target` on the other side
    /// alone: in the frame to which the own ad is docked and those that enclose it, and from the request in the root of the
    /// ad that was docked last (ClassAd Language Reference Manual 2.4, and the gangs of Raman, Livny and Solomon 2003).
    pub fn find(&self, at: AdPlace, scope: Scope, name: &[u8]) -> Found
        ensures found { result ≡ find (world_of self.now) at scope name.now }
        ensures there { IsThere (world_of self.now) result }
    {
        match scope {
            Scope::Bare => self.find_bare(at, name),
            Scope::My => self.find_in(root_of(at.ad), name),
            Scope::Target => self.find_beyond(at.ad, name),
        }
    }

    // The own frames hide the labels, and these the other side.
    fn find_bare(&self, at: AdPlace, name: &[u8]) -> Found
        ensures { result ≡ find (world_of self.now) at Scope.Bare name.now }
    {
        match self.find_upward(at, name) {
            Found::Nothing => match self.find_label(at.ad, name) {
                Found::Nothing => self.find_beyond(at.ad, name),
                found => found,
            },
            found => found,
        }
    }

    // In one frame alone.
    fn find_in(&self, at: AdPlace, name: &[u8]) -> Found
        ensures { result ≡ found_at (world_of self.now) name.now (in_frame at) }
    {
        match self.within(at, name) {
            Some(pos) => Found::Attr(pos),
            None => Found::Nothing,
        }
    }

    // In a frame, then in its parent, and so on up to the root.
    fn find_upward(&self, at: AdPlace, name: &[u8]) -> Found
        ensures { result ≡ first_found (world_of self.now) name.now (enclosing (world_of self.now) at) }
    {
        let mut next = Some(at.frame);
        while let Some(frame) = next {
            let here = AdPlace { ad: at.ad, frame };
            if let Some(pos) = self.within(here, name) {
                return Found::Attr(pos);
            }
            next = self.parent(here);
        }
        Found::Nothing
    }

    // Among the labels of the docked ports, which the request alone sees.
    fn find_label(&self, ad: u32, name: &[u8]) -> Found
        ensures { result ≡ first_found (world_of self.now) name.now (labels (world_of self.now) ad) }
    {
        if ad > 0 {
            return Found::Nothing;
        }
        for port in 0..self.docked_ports() {
            if self.is_labelled(port, name) {
                return Found::Place(root_of(port as u32 + 1));
            }
        }
        Found::Nothing
    }

    // On the other side, where there is one.
    fn find_beyond(&self, ad: u32, name: &[u8]) -> Found
        ensures { result ≡ first_found (world_of self.now) name.now (targets (world_of self.now) ad) }
    {
        match self.target(ad) {
            Some(place) => self.find_upward(place, name),
            None => Found::Nothing,
        }
    }
}

// The root of an ad.
fn root_of(ad: u32) -> AdPlace
    ensures { result ≡ record { ad = ad; frame = 0 } }
{
    AdPlace { ad, frame: 0 }
}
