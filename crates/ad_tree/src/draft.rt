// Drafts: ads while they are built. An expression has many kinds, so one that has served is dropped by a call, which is one
// case of a proof in the place of one for each kind.
ghost use Rattle.std.specs.Prelude.{◌≡◌, ◌+◌, ◌<◌, ◌^◌, ◌++◌, ◌∷◌, [], length, slice_get, option_map, IfOk, IsTrue, OnOk, OnErr};
ghost use Rattle.ad_tree.specs.Ad.{ad_frames};
ghost use Rattle.ad_tree.specs.Tree.{tree};
ghost use Rattle.ad_tree.specs.Frames.{IsAd, attributes_at, defined, empty_frame};
ghost use Rattle.ad_tree.specs.Inline.{frames, number, spelled, spelled_tree};
ghost use Rattle.ad_tree.specs.Phrases.{IsPhrase};
ghost use Rattle.ad_tree.specs.Steady.{MovesNone};
ghost use Rattle.ad_tree.specs.Table.{frame_of, frames_of};

use crate::frame::AdFrame;
use crate::hasher::NameHashers;
use crate::order::{is_in_order, is_phrase_in_order};
use crate::placing::{place, place_definitions};
use crate::{Ad, Expr, Phrase};
use pool_text::{OutOfMemory, Text};
use std::alloc::Global;

/// An ad that is being built. Contracts see its frames in the order in which they were added, `draft_frames`.
#[derive(Drop)]
pub struct Draft {
    pub(crate) alloc: Global,
    hashers: NameHashers,
    root: AdFrame,
    // Frames 1 and up.
    inner: Vec<AdFrame>,
    ghost few: { length inner.items + 1 < 2 ^ 32 },
}

impl Draft {
    ghost use Rattle.ad_tree.specs.Draft.{draft_frames};

    /// A draft with the root alone, frame 0, and no definitions.
    pub fn new(alloc: Global) -> Draft
        ensures { draft_frames result ≡ empty_frame 0 ∷ [] }
    {
        Draft::with_seed(alloc, 0)
    }

    /// The same, with this seed for the hashes of its names.
    pub fn with_seed(alloc: Global, seed: u64) -> Draft
        ensures { draft_frames result ≡ empty_frame 0 ∷ [] }
    {
        let hashers = NameHashers { seed };
        Draft {
            alloc,
            hashers,
            root: AdFrame::new(alloc, hashers, 0),
            inner: Vec::new(alloc),
        }
    }

    /// Adds a frame for an ad literal that is to stand in the frame `parent`, and answers its number. Want of memory
    /// leaves the draft as it was; it is answered too where the numbers end.
    pub fn frame(&mut self, parent: u32) -> Result<u32, OutOfMemory>
        ensures number { IfOk result (λ frame. frame ≡ length (draft_frames self.old)) }
        ensures ok { OnOk result (draft_frames self.new ≡ draft_frames self.old ++ empty_frame parent ∷ []) }
        ensures err { OnErr result (draft_frames self.new ≡ draft_frames self.old) }
    {
        if self.inner.len() >= u32::MAX as usize - 1 {
            return Err(OutOfMemory);
        }
        self.inner
            .push(AdFrame::new(self.alloc, self.hashers, parent))?;
        Ok(self.inner.len() as u32)
    }

    /// Makes room in a frame for so many more definitions, so that those that are there needn't move for them. Want of
    /// memory leaves the draft as it was.
    pub fn reserve(&mut self, frame: u32, more: usize) -> Result<(), OutOfMemory>
        requires { frame < length (draft_frames self.old) }
        ensures { draft_frames self.new ≡ draft_frames self.old }
    {
        if frame == 0 {
            self.root.reserve(more)
        } else {
            self.inner[frame as usize - 1].reserve(more)
        }
    }

    /// Defines a name in a frame. A name that the frame has already, in any spelling, keeps its place, and takes this
    /// spelling and this expression. Want of memory leaves the draft as it was.
    pub fn define(&mut self, frame: u32, name: Text, expr: Expr) -> Result<(), OutOfMemory>
        requires { frame < length (draft_frames self.old) }
        ensures ok { OnOk result (draft_frames self.new ≡ defined (draft_frames self.old) frame name (tree expr)) }
        ensures err { OnErr result (draft_frames self.new ≡ draft_frames self.old) }
        ensures len { length (draft_frames self.new) ≡ length (draft_frames self.old) }
    {
        self.define_noting(frame, name, expr)?;
        Ok(())
    }

    /// Defines a name as `define` does, and answers whether no ad literal is moved or lost by that, as far as is told at a
    /// glance.
    #[inline(always)]
    pub fn define_noting(&mut self, frame: u32, name: Text, expr: Expr) -> Result<bool, OutOfMemory>
        requires { frame < length (draft_frames self.old) }
        ensures ok { OnOk result (draft_frames self.new ≡ defined (draft_frames self.old) frame name (tree expr)) }
        ensures err { OnErr result (draft_frames self.new ≡ draft_frames self.old) }
        ensures len { length (draft_frames self.new) ≡ length (draft_frames self.old) }
        ensures steady { IfOk result (λ is_steady. IsTrue is_steady → MovesNone name (tree expr) (attributes_at (draft_frames self.old) frame)) }
    {
        if frame == 0 {
            self.root.define(name, expr)
        } else {
            self.inner[frame as usize - 1].define(name, expr)
        }
    }

    /// The ad of these definitions. Its frames are those that the root leads to, numbered in the order of their opening
    /// brackets in the printed ad; the frames of replaced expressions are gone.
    pub fn finish(self) -> Result<Ad, OutOfMemory>
        ensures { IfOk result (λ ad. ad_frames ad ≡ frames 0 0 (spelled (draft_frames self))) }
    {
        if is_in_order(&self) {
            return self.into_ad();
        }
        self.copied_ad()
    }

    /// The expression with the ad of its ad literals, whose root is empty. The frames are numbered from 1, as if the
    /// expression alone were printed in the root.
    pub fn finish_phrase(self, expr: Expr) -> Result<Phrase, OutOfMemory>
        ensures frames { IfOk result (λ phrase.
            ad_frames phrase.ad ≡ empty_frame 0 ∷ frames 0 1 (spelled_tree (draft_frames self) (tree expr))) }
        ensures expr { IfOk result (λ phrase. tree phrase.expr ≡ number 1 (spelled_tree (draft_frames self) (tree expr))) }
    {
        if !is_phrase_in_order(&self, &expr) {
            let phrase = self.copied_phrase(&expr);
            drop(expr);
            drop(self);
            return phrase;
        }
        match self.behind_empty_root() {
            Ok(ad) => Ok(Phrase { ad, expr }),
            Err(error) => {
                drop(expr);
                Err(error)
            }
        }
    }

    // The ad of copies of the frames.
    fn copied_ad(&self) -> Result<Ad, OutOfMemory>
        ensures { IfOk result (λ ad. ad_frames ad ≡ frames 0 0 (spelled (draft_frames self.now))) }
    {
        let mut copy = Draft::with_seed(self.alloc, self.hashers.seed);
        place_definitions(self, self.inner.len(), 0, &self.root, &mut copy)?;
        copy.into_ad()
    }

    // The expression with copies of its frames.
    fn copied_phrase(&self, expr: &Expr) -> Result<Phrase, OutOfMemory>
        ensures frames { IfOk result (λ phrase.
            ad_frames phrase.ad ≡ empty_frame 0 ∷ frames 0 1 (spelled_tree (draft_frames self.now) (tree expr.now))) }
        ensures expr { IfOk result (λ phrase.
            tree phrase.expr ≡ number 1 (spelled_tree (draft_frames self.now) (tree expr.now))) }
    {
        let mut copy = Draft::with_seed(self.alloc, self.hashers.seed);
        let expr = place(self, self.count(), 0, expr, &mut copy)?;
        match copy.into_ad() {
            Ok(ad) => Ok(Phrase { ad, expr }),
            Err(error) => {
                drop(expr);
                Err(error)
            }
        }
    }

    // The ad of the frames behind the root, with an empty root.
    fn behind_empty_root(self) -> Result<Ad, OutOfMemory>
        requires { IsAd (empty_frame 0 ∷ frames_of self.inner.items) }
        ensures { IfOk result (λ ad. ad_frames ad ≡ empty_frame 0 ∷ frames_of self.inner.items) }
    {
        let root = AdFrame::new(self.alloc, self.hashers, 0);
        Ad::from_frames(self.alloc, root, self.inner)
    }

    /// The ad of these frames, which are those of an ad already. They are moved.
    pub fn into_ad(self) -> Result<Ad, OutOfMemory>
        requires { IsAd (draft_frames self) }
        ensures { IfOk result (λ ad. ad_frames ad ≡ draft_frames self) }
    {
        Ad::from_frames(self.alloc, self.root, self.inner)
    }

    /// The expression with the ad of these frames, which are those of its ad literals already. They are moved.
    pub fn into_phrase(self, expr: Expr) -> Result<Phrase, OutOfMemory>
        requires is_ad { IsAd (draft_frames self) }
        requires is_phrase { IsPhrase (draft_frames self) (tree expr) }
        ensures frames { IfOk result (λ phrase. ad_frames phrase.ad ≡ draft_frames self) }
        ensures expr { IfOk result (λ phrase. tree phrase.expr ≡ tree expr) }
    {
        match self.into_ad() {
            Ok(ad) => Ok(Phrase { ad, expr }),
            Err(error) => {
                drop(expr);
                Err(error)
            }
        }
    }

    pub(crate) fn count(&self) -> usize
        ensures { result ≡ length (draft_frames self.now) }
    {
        self.inner.len() + 1
    }

    pub(crate) fn frame_at(&self, frame: u32) -> Option<&AdFrame>
        ensures { option_map (λ f. frame_of f.now) result ≡ slice_get (draft_frames self.now) frame }
    {
        if frame == 0 {
            return Some(&self.root);
        }
        let place = frame as usize - 1;
        if place >= self.inner.len() {
            return None;
        }
        Some(&self.inner[place])
    }
}
