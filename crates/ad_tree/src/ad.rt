// Ads, as contracts see them: a list of frames.
ghost use Rattle.std.specs.Prelude.{◌≡◌, ◌+◌, ◌<◌, ◌^◌, ◌∷◌, length, slice_get, position, Some, IfOk, IfSome};
ghost use Rattle.ad_tree.specs.Tree.{tree};
ghost use Rattle.ad_tree.specs.Names.{same_name};
ghost use Rattle.ad_tree.specs.Frames.{IsAd, attributes_at, names_in, parent_of, name_at, expr_at};
ghost use Rattle.ad_tree.specs.Special.{match_attributes_of, rank_of, requirement_of};
ghost use Rattle.ad_tree.specs.Table.{frame_of, frames_of, table_frames};

use crate::Expr;
use crate::frame::AdFrame;
use crate::table::Table;
use pool_text::{OutOfMemory, Text};
use std::alloc::Global;
use std::rc::Rc;

/// An ad: a table of frames. Frame 0 is the root; every other frame is an ad literal and names a lower frame as its
/// parent, the frame in whose expressions it stands. The names of a frame differ after folding (ClassAd Language
/// Reference Manual 2.4, attribute names ignore case). Contracts see the list of frames, `ad_frames`.
///
/// An ad doesn't change, so it can be held in several places at once (`share`).
#[derive(Drop)]
pub struct Ad {
    frames: Rc<Table>,
    pub ghost is_ad: { IsAd (table_frames frames.value) },
    ghost matching: { frames.value.matching ≡ match_attributes_of (frame_of frames.value.root) },
}

impl Ad {
    ghost use Rattle.ad_tree.specs.Ad.{ad_frames};

    // The ad of a root with the other frames behind it, which take no more memory than they need.
    pub(crate) fn from_frames(
        alloc: Global,
        mut root: AdFrame,
        mut inner: Vec<AdFrame>,
    ) -> Result<Ad, OutOfMemory>
        requires is_ad { IsAd (frame_of root ∷ frames_of inner.items) }
        requires few { length inner.items + 1 < 2 ^ 32 }
        ensures { IfOk result (λ ad. ad_frames ad ≡ frame_of root ∷ frames_of inner.items) }
    {
        root.shrink();
        shrink(&mut inner);
        inner.shrink_to_fit();
        let frames = Table::new(root, inner);
        Ok(Ad {
            frames: Rc::new(alloc, frames)?,
        })
    }

    /// The same ad for one more holder. Nothing is copied, and the frames are given back with the last holder.
    pub fn share(&self) -> Result<Ad, OutOfMemory>
        ensures { IfOk result (λ ad. ad_frames ad ≡ ad_frames self.now) }
    {
        Ok(Ad {
            frames: self.frames.clone()?,
        })
    }

    fn frame_at(&self, frame: u32) -> &AdFrame
        requires { frame < length (ad_frames self.now) }
        ensures { slice_get (ad_frames self.now) frame ≡ Some (frame_of result.now) }
    {
        self.frames.at(frame)
    }

    /// How many frames there are, the root among them.
    pub fn frames(&self) -> u32
        ensures { result ≡ length (ad_frames self.now) }
    {
        self.frames.count()
    }

    /// The frame in whose expressions this frame stands, which is lower. `None` exactly for the root.
    pub fn parent(&self, frame: u32) -> Option<u32>
        requires { frame < length (ad_frames self.now) }
        ensures parent { result ≡ parent_of (ad_frames self.now) frame }
        ensures lower { IfSome result (λ parent. parent < frame) }
    {
        if frame == 0 {
            None
        } else {
            Some(self.frame_at(frame).parent)
        }
    }

    /// How many attributes the frame has.
    pub fn count(&self, frame: u32) -> u32
        requires { frame < length (ad_frames self.now) }
        ensures { result ≡ length (attributes_at (ad_frames self.now) frame) }
    {
        self.frame_at(frame).count()
    }

    /// The name of the attribute at place `attr`, counted from 0, in its last spelling.
    pub fn name(&self, frame: u32, attr: u32) -> &Text
        requires frame { frame < length (ad_frames self.now) }
        requires attr { attr < length (attributes_at (ad_frames self.now) frame) }
        ensures { name_at (ad_frames self.now) frame attr ≡ Some result.now }
    {
        &self.frame_at(frame).at(attr).name
    }

    /// The expression of the attribute at place `attr`, counted from 0.
    pub fn expr(&self, frame: u32, attr: u32) -> &Expr
        requires frame { frame < length (ad_frames self.now) }
        requires attr { attr < length (attributes_at (ad_frames self.now) frame) }
        ensures { expr_at (ad_frames self.now) frame attr ≡ Some (tree result.now) }
    {
        &self.frame_at(frame).at(attr).expr
    }

    /// The place of the attribute whose name is equal to this one after folding, found with no memory taken.
    /// `None` exactly where the frame has no such name. Parents aren't looked at.
    pub fn position(&self, frame: u32, name: &[u8]) -> Option<u32>
        requires { frame < length (ad_frames self.now) }
        ensures { result ≡ position (same_name name.now) (names_in (ad_frames self.now) frame) }
    {
        self.frame_at(frame).position(name)
    }

    /// The place of the frame's requirement: its attribute `Requirements`, or `Constraint` where it has none. That of the root
    /// isn't looked for again.
    pub fn requirement(&self, frame: u32) -> Option<u32>
        requires { frame < length (ad_frames self.now) }
        ensures { result ≡ requirement_of (ad_frames self.now) frame }
    {
        match frame {
            0 => self.frames.matching.requirement,
            _ => self.frame_at(frame).requirement(),
        }
    }

    /// The place of the frame's rank: its attribute `Rank`.
    pub fn rank(&self, frame: u32) -> Option<u32>
        requires { frame < length (ad_frames self.now) }
        ensures { result ≡ rank_of (ad_frames self.now) frame }
    {
        match frame {
            0 => self.frames.matching.rank,
            _ => self.position(frame, b"Rank"),
        }
    }
}

// Gives back the room that the frames don't need.
fn shrink(frames: &mut [AdFrame])
    ensures { frames_of frames.new ≡ frames_of frames.old }
{
    for i in 0..frames.len() {
        frames[i].shrink();
    }
}
