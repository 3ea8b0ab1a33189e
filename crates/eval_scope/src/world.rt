// A world: a request with the ads that are docked to it.
ghost use Rattle.std.specs.Prelude.{◌≡◌, ◌≤◌, ◌<◌, ◌+◌, ◌-◌, ◌^◌, [], length, slice_get, slice_set, option_map, sum_by, min, Some, IsSome, IfSome};
ghost use Rattle.std.specs.Option.{option_copied};
ghost use Rattle.ad_tree.specs.Tree.{tree};
ghost use Rattle.ad_tree.specs.Frames.{parent_of};
ghost use Rattle.ad_tree.specs.Names.{same_name};
ghost use Rattle.ad_tree.specs.Ad.{ad_frames};

use ad_tree::{Ad, Expr, Ports};
use pool_steps::Steps;
use pool_text::{AdPlace, Lit, Pos, same_folded};
use std::sync::ledger::Ledger;

/// As many ads can be docked as a gang has ports at most.
const MOST_DOCKED: usize = 8;

/// A request with the ads that are docked to it, one for each port of a gang in turn, or one for a single request.
/// It borrows all of them and takes no memory, so a copy with one more ad is cheap.
#[derive(Clone, Copy)]
pub struct World<'a> {
    moment: u64,
    request: &'a Ad,
    ports: &'a Ports,
    resources: [&'a Ad; MOST_DOCKED],
    docked: usize,
    pub ghost most: { docked ≤ 8 },
}

impl<'a> World<'a> {
    ghost use Rattle.eval_scope.specs.World.{ads, attribute_count, expr_of, frames_of_ad, literal_of, next_side, port_frame, request_side};
    ghost use Rattle.eval_scope.specs.World.{resource_side, size_at, target, with_docked};
    ghost use Rattle.eval_scope.specs.Look.{attribute_in, rank_at, requirement_at};
    ghost use Rattle.eval_scope.specs.Shown.{world_of};

    /// The world of a request with nothing docked.
    pub fn new(moment: u64, ad: &'a Ad, ports: &'a Ports) -> World<'a>
        ensures { world_of result ≡ record { moment = moment; request = ad_frames ad.entry.now; ports = ports.entry.now; docked = [] } }
    {
        World {
            moment,
            request: ad,
            ports,
            resources: [ad; MOST_DOCKED],
            docked: 0,
        }
    }

    /// Docks the next ad.
    pub fn dock(&mut self, ad: &'a Ad)
        requires { length (world_of self.old).docked < 8 }
        ensures { world_of self.new ≡ with_docked (world_of self.old) (ad_frames ad.entry.now) }
    {
        let mut resources = self.resources;
        put(&mut resources, self.docked, ad);
        self.resources = resources;
        self.docked += 1;
    }

    /// This world with one more ad docked.
    pub fn with(&self, ad: &'a Ad) -> World<'a>
        requires { length (world_of self.now).docked < 8 }
        ensures { world_of result ≡ with_docked (world_of self.now) (ad_frames ad.entry.now) }
    {
        let mut deeper = *self;
        deeper.dock(ad);
        deeper
    }

    /// The moment.
    pub fn moment(&self) -> u64
        ensures { result ≡ (world_of self.now).moment }
    {
        self.moment
    }

    /// The ad of the request.
    pub fn request(&self) -> &'a Ad
        ensures { ad_frames result.now ≡ (world_of self.now).request }
    {
        self.request
    }

    /// The ports of the request.
    pub fn ports(&self) -> &'a Ports
        ensures { result.now ≡ (world_of self.now).ports }
    {
        self.ports
    }

    /// The frame of the request to which the next ad is docked.
    pub fn next_place(&self) -> AdPlace
        ensures { result ≡ next_side (world_of self.now) }
    {
        AdPlace {
            ad: 0,
            frame: self.port_frame(self.docked as u32 + 1),
        }
    }

    /// The frame of the request to which the last ad is docked.
    pub fn request_place(&self) -> AdPlace
        ensures { result ≡ request_side (world_of self.now) }
    {
        AdPlace {
            ad: 0,
            frame: self.port_frame(self.docked as u32),
        }
    }

    /// The root of the ad that was docked last.
    pub fn resource_place(&self) -> AdPlace
        ensures { result ≡ resource_side (world_of self.now) }
    {
        AdPlace {
            ad: self.docked as u32,
            frame: 0,
        }
    }

    /// How many attributes all ads have, 2^64 - 1 where that is more.
    pub fn attributes(&self) -> u64
        ensures { result ≡ min (attribute_count (world_of self.now)) (2 ^ 64 - 1) }
    {
        let mut total: u64 = count_of(self.request);
        for ad in &self.resources[..self.docked] {
            total = total.saturating_add(count_of(ad));
        }
        total
    }

    /// How many attributes the frame has, 0 where there is no such frame.
    pub fn size_of(&self, at: AdPlace) -> u32
        ensures { result ≡ size_at (world_of self.now) at }
    {
        match self.ad(at.ad) {
            Some(ad) if at.frame < ad.frames() => ad.count(at.frame),
            _ => 0,
        }
    }

    /// The expression of an attribute. It counts one in `entry`.
    pub fn expr_at<E: Ledger>(&self, pos: Pos, entry: &mut Steps<E>) -> &'a Expr
        requires { IsSome (expr_of (world_of self.now) pos) }
        ensures expr { expr_of (world_of self.now) pos ≡ Some (tree result.now) }
        ensures counted { entry.new ≡ entry.old + 1 }
    {
        entry.tick();
        self.expr(pos)
    }

    /// The literal that an attribute's expression is, `None` where it is anything else. It counts nothing.
    pub fn literal_at(&self, pos: Pos) -> Option<&'a Lit>
        requires { IsSome (expr_of (world_of self.now) pos) }
        ensures { option_copied result ≡ literal_of (expr_of (world_of self.now) pos) }
    {
        match self.expr(pos) {
            Expr::Literal(lit) => Some(lit),
            _ => None,
        }
    }

    /// The attribute of this name in the frame, found with no memory taken. `None` exactly where the frame has no such
    /// name, or there is no such frame. Parents aren't looked at.
    pub fn within(&self, at: AdPlace, name: &[u8]) -> Option<Pos>
        ensures found { result ≡ attribute_in (world_of self.now) at name.now }
        ensures there { IfSome result (λ pos. IsSome (expr_of (world_of self.now) pos)) }
    {
        let ad = self.ad(at.ad)?;
        if at.frame >= ad.frames() {
            return None;
        }
        let attr = ad.position(at.frame, name)?;
        Some(Pos {
            ad: at.ad,
            frame: at.frame,
            attr,
        })
    }

    /// The requirement of the frame: its attribute `Requirements`, or `Constraint` where it has none.
    pub fn requirement(&self, at: AdPlace) -> Option<Pos>
        ensures found { result ≡ requirement_at (world_of self.now) at }
        ensures there { IfSome result (λ pos. IsSome (expr_of (world_of self.now) pos)) }
    {
        let ad = self.ad(at.ad)?;
        if at.frame >= ad.frames() {
            return None;
        }
        let attr = ad.requirement(at.frame)?;
        Some(Pos {
            ad: at.ad,
            frame: at.frame,
            attr,
        })
    }

    /// The rank of the frame: its attribute `Rank`.
    pub fn rank(&self, at: AdPlace) -> Option<Pos>
        ensures found { result ≡ rank_at (world_of self.now) at }
        ensures there { IfSome result (λ pos. IsSome (expr_of (world_of self.now) pos)) }
    {
        let ad = self.ad(at.ad)?;
        if at.frame >= ad.frames() {
            return None;
        }
        let attr = ad.rank(at.frame)?;
        Some(Pos {
            ad: at.ad,
            frame: at.frame,
            attr,
        })
    }

    // The frame in whose expressions a frame stands.
    pub(crate) fn parent(&self, at: AdPlace) -> Option<u32>
        ensures parent { result ≡ parent_of (frames_of_ad (world_of self.now) at.ad) at.frame }
        ensures lower { IfSome result (λ parent. parent < at.frame) }
    {
        match self.ad(at.ad) {
            Some(ad) if at.frame < ad.frames() => ad.parent(at.frame),
            _ => None,
        }
    }

    // Where expressions of an ad look for the other side.
    pub(crate) fn target(&self, ad: u32) -> Option<AdPlace>
        ensures { result ≡ target (world_of self.now) ad }
    {
        if ad > 0 {
            return Some(AdPlace {
                ad: 0,
                frame: self.port_frame(ad),
            });
        }
        if self.docked == 0 {
            return None;
        }
        Some(self.resource_place())
    }

    // How many ports have a docked ad.
    pub(crate) fn docked_ports(&self) -> usize
        ensures { result ≡ min (length (world_of self.now).ports) (length (world_of self.now).docked) }
    {
        self.ports.len().min(self.docked)
    }

    // Whether a port has this label.
    pub(crate) fn is_labelled(&self, port: usize, name: &[u8]) -> bool
        requires { port < length (world_of self.now).ports }
        ensures { option_map (λ p. same_name name.now p.label) (slice_get (world_of self.now).ports port) ≡ Some result }
    {
        same_folded(name, self.ports.at(port).label.bytes())
    }

    // The expression of an attribute that is there.
    fn expr(&self, pos: Pos) -> &'a Expr
        requires { IsSome (expr_of (world_of self.now) pos) }
        ensures { expr_of (world_of self.now) pos ≡ Some (tree result.now) }
    {
        self.ad(pos.ad).unwrap().expr(pos.frame, pos.attr)
    }

    // The ad with this number.
    fn ad(&self, ad: u32) -> Option<&'a Ad>
        ensures { option_map (λ a. ad_frames a.now) result ≡ slice_get (ads (world_of self.now)) ad }
    {
        if ad == 0 {
            return Some(self.request);
        }
        let place = ad as usize - 1;
        if place >= self.docked {
            return None;
        }
        let resources = &self.resources[..];
        Some(resources[place])
    }

    // The frame of the port at which ad `ad` is docked, the root for a single request.
    fn port_frame(&self, ad: u32) -> u32
        ensures { result ≡ port_frame (world_of self.now).ports ad }
    {
        let port = (ad as usize).saturating_sub(1);
        if port < self.ports.len() {
            self.ports.at(port).frame
        } else {
            0
        }
    }
}

// Puts an ad at a place of a slice.
fn put<'a>(ads: &mut [&'a Ad], place: usize, ad: &'a Ad)
    requires { place < length ads.old }
    ensures { ads.new ≡ slice_set ads.old place ad.entry }
{
    ads[place] = ad;
}

// How many attributes an ad has, 2^64 - 1 where that is more.
fn count_of(ad: &Ad) -> u64
    ensures { result ≡ min (sum_by (λ f. length f.attributes) (ad_frames ad.now)) (2 ^ 64 - 1) }
{
    let mut total: u64 = 0;
    for frame in 0..ad.frames() {
        total = total.saturating_add(u64::from(ad.count(frame)));
    }
    total
}
