// The frames of an ad. The root stands beside the others: most ads have no others, and then take no memory for them.
ghost use Rattle.std.specs.Prelude.{◌≡◌, ◌+◌, ◌<◌, ◌^◌, ◌∷◌, length, slice_get, Some};

use crate::frame::{AdFrame, MatchAttributes};

/// The frames of an ad by their numbers: its root, which is 0, and the others from 1 on.
#[derive(Drop)]
pub struct Table {
    pub root: AdFrame,
    // Frames 1 and up.
    pub inner: Vec<AdFrame>,
    // Those of the root are looked up once.
    pub matching: MatchAttributes,
    ghost few: { length inner.items + 1 < 2 ^ 32 },
}

impl Table {
    ghost use Rattle.ad_tree.specs.Special.{match_attributes_of};
    ghost use Rattle.ad_tree.specs.Table.{frame_of, frames_of, table_frames};

    /// The table of a root with the other frames behind it.
    pub fn new(root: AdFrame, inner: Vec<AdFrame>) -> Table
        requires { length inner.items + 1 < 2 ^ 32 }
        ensures frames { table_frames result ≡ frame_of root ∷ frames_of inner.items }
        ensures matching { result.matching ≡ match_attributes_of (frame_of root) }
    {
        let matching = root.matching();
        Table {
            root,
            inner,
            matching,
        }
    }

    /// How many frames there are, the root among them.
    pub fn count(&self) -> u32
        ensures { result ≡ length (table_frames self.now) }
    {
        self.inner.len() as u32 + 1
    }

    /// The frame of this number, of which 0 is the root.
    pub fn at(&self, frame: u32) -> &AdFrame
        requires { frame < length (table_frames self.now) }
        ensures { slice_get (table_frames self.now) frame ≡ Some (frame_of result.now) }
    {
        if frame == 0 {
            return &self.root;
        }
        &self.inner[frame as usize - 1]
    }
}
