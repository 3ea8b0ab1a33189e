// Most drafts are in order: their frames are numbered in the order of their opening brackets, and none was replaced.
// Then the frames of the draft are those of the ad, and needn't be copied. This walk finds that out, and takes no memory.
// It goes as the copy does, and has the same contracts, with the first frames of the draft in the place of those that
// are copied so far. No contract says that it finds every draft in order: to miss one only costs a copy.
ghost use Rattle.std.specs.Prelude.{◌≡◌, length, take, Some, IfSome, IsTrue};
ghost use Rattle.ad_tree.specs.Tree.{tree, trees, frame as frame_numbered, pack, two, three};
ghost use Rattle.ad_tree.specs.Inline.{frames, number, inside, inlined, inlined_all, opened, defs_of, spelled, spelled_tree};
ghost use Rattle.ad_tree.specs.Placed.{IsPlaced, AreAllPlaced, AreDefinitionsPlaced};
ghost use Rattle.ad_tree.specs.Table.{frame_of, frames_of};
ghost use Rattle.ad_tree.specs.Draft.{draft_frames};

use crate::frame::AdFrame;
use crate::{Draft, Expr, Exprs};

/// Whether the frames of the draft are those of its ad already.
pub fn is_in_order(draft: &Draft) -> bool
    ensures { IsTrue result → draft_frames draft.now ≡ frames 0 0 (spelled (draft_frames draft.now)) }
{
    let after = follow_frame(draft, draft.count(), 0, 0, 0);
    is_end(draft, after)
}

/// Whether the frames behind the root are those of the phrase already, and the expression cites them by their numbers
/// there.
pub fn is_phrase_in_order(draft: &Draft, expr: &Expr) -> bool
    ensures frames { IsTrue result → frames_of draft.now.inner.items ≡ frames 0 1 (spelled_tree (draft_frames draft.now) (tree expr.now)) }
    ensures expr { IsTrue result → tree expr.now ≡ number 1 (spelled_tree (draft_frames draft.now) (tree expr.now)) }
{
    let after = follow(draft, draft.count(), 0, expr, 1);
    is_end(draft, after)
}

// Whether the walk came behind the last frame. A frame that it never met was replaced.
fn is_end(draft: &Draft, after: Option<u32>) -> bool
    ensures { IsTrue result → after ≡ Some (length (draft_frames draft.now)) }
{
    match after {
        Some(after) => after as usize == draft.count(),
        None => false,
    }
}

// Where the frames of an expression in the frame `parent` stand in order from frame `next` on, the frame behind them.
// Most expressions are literals and names, which take no call.
#[cycle(ordering)]
#[inline(always)]
fn follow(draft: &Draft, turns: usize, parent: u32, expr: &Expr, next: u32) -> Option<u32>
    ensures { IfSome result (λ after. IsPlaced parent (inlined (inside (draft_frames draft.now) turns) (tree expr.now))
        (tree expr.now) (take next (draft_frames draft.now)) (take after (draft_frames draft.now))) }
{
    match expr {
        Expr::Literal(_) | Expr::Name(_, _) => Some(next),
        _ => follow_parts(draft, turns, parent, expr, next),
    }
}

// The same, part by part.
#[cycle(ordering)]
fn follow_parts(draft: &Draft, turns: usize, parent: u32, expr: &Expr, next: u32) -> Option<u32>
    ensures { IfSome result (λ after. IsPlaced parent (inlined (inside (draft_frames draft.now) turns) (tree expr.now))
        (tree expr.now) (take next (draft_frames draft.now)) (take after (draft_frames draft.now))) }
{
    match expr {
        Expr::Literal(_) | Expr::Name(_, _) => Some(next),
        Expr::Unary(_, a) | Expr::Select(a, _) => follow(draft, turns, parent, a, next),
        Expr::Binary(_, a, b) | Expr::Subscript(a, b) => {
            follow_two(draft, turns, parent, a, b, next)
        }
        Expr::And(list) | Expr::Or(list) | Expr::List(list) => {
            follow_all(draft, turns, parent, list, next)
        }
        Expr::Call(_, list) => follow_all(draft, turns, parent, list, next),
        Expr::Cond(a, b, c) => follow_three(draft, turns, parent, (a, b, c), next),
        Expr::Frame(frame) => follow_frame(draft, turns, parent, *frame, next),
    }
}

#[cycle(ordering)]
fn follow_two(
    draft: &Draft,
    turns: usize,
    parent: u32,
    a: &Expr,
    b: &Expr,
    next: u32,
) -> Option<u32>
    ensures { IfSome result (λ after. AreAllPlaced parent
        (inlined_all (inside (draft_frames draft.now) turns) (two (tree a.now) (tree b.now)))
        (two (tree a.now) (tree b.now))
        (take next (draft_frames draft.now)) (take after (draft_frames draft.now))) }
{
    let next = follow(draft, turns, parent, a, next)?;
    follow(draft, turns, parent, b, next)
}

#[cycle(ordering)]
fn follow_three(
    draft: &Draft,
    turns: usize,
    parent: u32,
    exprs: (&Expr, &Expr, &Expr),
    next: u32,
) -> Option<u32>
    ensures { IfSome result (λ after. AreAllPlaced parent
        (inlined_all (inside (draft_frames draft.now) turns)
        (three (tree exprs.entry.0.now) (tree exprs.entry.1.now) (tree exprs.entry.2.now)))
        (three (tree exprs.entry.0.now) (tree exprs.entry.1.now) (tree exprs.entry.2.now))
        (take next (draft_frames draft.now)) (take after (draft_frames draft.now))) }
{
    let (a, b, c) = exprs;
    let next = follow(draft, turns, parent, a, next)?;
    follow_two(draft, turns, parent, b, c, next)
}

#[cycle(ordering)]
fn follow_all(draft: &Draft, turns: usize, parent: u32, list: &Exprs, next: u32) -> Option<u32>
    ensures { IfSome result (λ after. AreAllPlaced parent
        (inlined_all (inside (draft_frames draft.now) turns) (pack (trees list.now))) (pack (trees list.now))
        (take next (draft_frames draft.now)) (take after (draft_frames draft.now))) }
{
    let mut after = next;
    for i in 0..list.len() {
        after = follow(draft, turns, parent, list.at(i), after)?;
    }
    Some(after)
}

// Where the frame is `next` and stands in `parent`, and the frames that it leads to stand in order behind it, the frame
// behind them.
#[cycle(ordering)]
fn follow_frame(draft: &Draft, turns: usize, parent: u32, frame: u32, next: u32) -> Option<u32>
    ensures { IfSome result (λ after. IsPlaced parent (opened (draft_frames draft.now) turns frame) (frame_numbered frame)
        (take next (draft_frames draft.now)) (take after (draft_frames draft.now))) }
{
    if turns == 0 || frame != next {
        return None;
    }
    let source = draft.frame_at(frame)?;
    if source.parent != parent {
        return None;
    }
    follow_definitions(draft, turns - 1, frame, source, frame + 1)
}

#[cycle(ordering)]
fn follow_definitions(
    draft: &Draft,
    turns: usize,
    parent: u32,
    source: &AdFrame,
    next: u32,
) -> Option<u32>
    ensures { IfSome result (λ after. AreDefinitionsPlaced (frame_of source.now).parent parent
        (defs_of (inside (draft_frames draft.now) turns) (frame_of source.now).attributes) (frame_of source.now)
        (take next (draft_frames draft.now)) (take after (draft_frames draft.now))) }
{
    let mut after = next;
    for i in 0..source.count() {
        after = follow(draft, turns, parent, &source.at(i).expr, after)?;
    }
    Some(after)
}
