// A draft's expressions are copied into another draft, whose frames are numbered as the copy meets them: in the order of
// their opening brackets. `turns` bounds the descent through frames; a draft's number of frames is enough of them.
ghost use Rattle.std.specs.Prelude.{◌≡◌, ◌<◌, ℕ, List, [], ◌∷◌, ◌++◌, length, IfOk, OnOk};
ghost use Rattle.ad_tree.specs.Tree.{tree, trees, frame as frame_numbered, pack, two, three};
ghost use Rattle.ad_tree.specs.Inline.{inside, inlined, inlined_all, opened, defs_of};
ghost use Rattle.ad_tree.specs.Frames.{Frame, empty_frame};
ghost use Rattle.ad_tree.specs.Placed.{IsPlaced, AreAllPlaced, HasDefined};
ghost use Rattle.ad_tree.specs.Table.{frame_of};
ghost use Rattle.ad_tree.specs.Draft.{draft_frames};

use crate::frame::AdFrame;
use crate::literal::copy_literal;
use crate::{Draft, Expr, Exprs};
use pool_text::OutOfMemory;

/// A copy of an expression that stands in the frame `parent`, with the frames of its ad literals put behind those of `out`.
#[cycle(placing)]
pub fn place(
    draft: &Draft,
    turns: usize,
    parent: u32,
    expr: &Expr,
    out: &mut Draft,
) -> Result<Expr, OutOfMemory>
    ensures { IfOk result (λ copy. IsPlaced parent (inlined (inside (draft_frames draft.now) turns) (tree expr.now))
        (tree copy) (draft_frames out.old) (draft_frames out.new)) }
{
    match expr {
        Expr::Literal(literal) => Ok(Expr::Literal(copy_literal(literal)?)),
        Expr::Name(scope, name) => Ok(Expr::Name(*scope, name.copy()?)),
        Expr::Unary(op, a) => Ok(Expr::Unary(*op, place_boxed(draft, turns, parent, a, out)?)),
        Expr::Binary(op, a, b) => {
            let (a, b) = place_two(draft, turns, parent, a, b, out)?;
            Ok(Expr::Binary(*op, a, b))
        }
        Expr::And(list) => Ok(Expr::And(place_all(draft, turns, parent, list, out)?)),
        Expr::Or(list) => Ok(Expr::Or(place_all(draft, turns, parent, list, out)?)),
        Expr::Cond(a, b, c) => {
            let (a, b, c) = place_three(draft, turns, parent, (a, b, c), out)?;
            Ok(Expr::Cond(a, b, c))
        }
        Expr::Select(a, name) => {
            let a = place_boxed(draft, turns, parent, a, out)?;
            Ok(Expr::Select(a, name.copy()?))
        }
        Expr::Subscript(a, b) => {
            let (a, b) = place_two(draft, turns, parent, a, b, out)?;
            Ok(Expr::Subscript(a, b))
        }
        Expr::Call(name, list) => {
            let list = place_all(draft, turns, parent, list, out)?;
            Ok(Expr::Call(name.copy()?, Box::new(out.alloc, list)?))
        }
        Expr::List(list) => Ok(Expr::List(place_all(draft, turns, parent, list, out)?)),
        Expr::Frame(frame) => Ok(Expr::Frame(open(draft, turns, parent, *frame, out)?)),
    }
}

#[cycle(placing)]
fn place_boxed(
    draft: &Draft,
    turns: usize,
    parent: u32,
    expr: &Expr,
    out: &mut Draft,
) -> Result<Box<Expr>, OutOfMemory>
    ensures { IfOk result (λ copy. IsPlaced parent (inlined (inside (draft_frames draft.now) turns) (tree expr.now))
        (tree copy.value) (draft_frames out.old) (draft_frames out.new)) }
{
    let copy = place(draft, turns, parent, expr, out)?;
    Ok(Box::new(out.alloc, copy)?)
}

#[cycle(placing)]
fn place_two(
    draft: &Draft,
    turns: usize,
    parent: u32,
    a: &Expr,
    b: &Expr,
    out: &mut Draft,
) -> Result<(Box<Expr>, Box<Expr>), OutOfMemory>
    ensures { IfOk result (λ copies. AreAllPlaced parent
        (inlined_all (inside (draft_frames draft.now) turns) (two (tree a.now) (tree b.now)))
        (two (tree copies.0.value) (tree copies.1.value))
        (draft_frames out.old) (draft_frames out.new)) }
{
    let a = place_boxed(draft, turns, parent, a, out)?;
    let b = place_boxed(draft, turns, parent, b, out)?;
    Ok((a, b))
}

#[cycle(placing)]
fn place_three(
    draft: &Draft,
    turns: usize,
    parent: u32,
    exprs: (&Expr, &Expr, &Expr),
    out: &mut Draft,
) -> Result<(Box<Expr>, Box<Expr>, Box<Expr>), OutOfMemory>
    ensures { IfOk result (λ copies. AreAllPlaced parent
        (inlined_all (inside (draft_frames draft.now) turns)
        (three (tree exprs.entry.0.now) (tree exprs.entry.1.now) (tree exprs.entry.2.now)))
        (three (tree copies.0.value) (tree copies.1.value) (tree copies.2.value))
        (draft_frames out.old) (draft_frames out.new)) }
{
    let (a, b, c) = exprs;
    let a = place_boxed(draft, turns, parent, a, out)?;
    let (b, c) = place_two(draft, turns, parent, b, c, out)?;
    Ok((a, b, c))
}

#[cycle(placing)]
fn place_all(
    draft: &Draft,
    turns: usize,
    parent: u32,
    list: &Exprs,
    out: &mut Draft,
) -> Result<Exprs, OutOfMemory>
    ensures { IfOk result (λ copies. AreAllPlaced parent
        (inlined_all (inside (draft_frames draft.now) turns) (pack (trees list.now))) (pack (trees copies))
        (draft_frames out.old) (draft_frames out.new)) }
{
    let mut copies = Exprs::new(out.alloc);
    for i in 0..list.len() {
        let copy = place(draft, turns, parent, list.at(i), out)?;
        copies.push(copy)?;
    }
    Ok(copies)
}

// Puts a copy of the draft's frame behind those of `out`, as a frame that stands in `parent`, with all frames that it
// leads to, and answers its number. Where no turns are left, or the draft has no such frame, the copy is empty.
#[cycle(placing)]
fn open(
    draft: &Draft,
    turns: usize,
    parent: u32,
    frame: u32,
    out: &mut Draft,
) -> Result<u32, OutOfMemory>
    ensures { IfOk result (λ number. IsPlaced parent (opened (draft_frames draft.now) turns frame) (frame_numbered number)
        (draft_frames out.old) (draft_frames out.new)) }
{
    let at = out.frame(parent)?;
    if turns == 0 {
        return Ok(at);
    }
    let Some(source) = draft.frame_at(frame) else {
        return Ok(at);
    };
    place_definitions(draft, turns - 1, at, source, out)?;
    Ok(at)
}

/// Defines copies of the frame's attributes in the frame `at` of `out`.
#[cycle(placing)]
pub fn place_definitions(
    draft: &Draft,
    turns: usize,
    at: u32,
    source: &AdFrame,
    out: &mut Draft,
) -> Result<(), OutOfMemory>
    requires { at < length (draft_frames out.old) }
    ensures { OnOk result ((parent : ℕ) (before : List Frame) → at ≡ length before
        → draft_frames out.old ≡ before ++ empty_frame parent ∷ []
        → HasDefined parent (defs_of (inside (draft_frames draft.now) turns) (frame_of source.now).attributes)
        before (draft_frames out.new)) }
{
    for i in 0..source.count() {
        let attribute = source.at(i);
        let name = attribute.name.copy()?;
        let expr = place(draft, turns, at, &attribute.expr, out)?;
        out.define(at, name, expr)?;
    }
    Ok(())
}
