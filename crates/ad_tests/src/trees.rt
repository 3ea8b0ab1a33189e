// Drafts whose frames no parser makes in this order, and the ads that they make.
ghost use Rattle.std.specs.Prelude.{◌≡◌, length};
ghost use Rattle.ad_tree.specs.Draft.{draft_frames};

use ad_printer::{print_ad, print_expr};
use ad_tree::{Ad, Draft, Expr, Phrase};
use pool_text::{Lit, OutOfMemory, Text};
use std::alloc::Global;
use std::process::Abort;
use std::test::Fail;

// The expression of a definition: an Integer, or the ad literal of a frame.
#[derive(Clone, Copy)]
enum Given {
    Integer(i64),
    Frame(u32),
}

use Given::{Frame, Integer};

fn expression(given: Given) -> Expr {
    match given {
        Integer(n) => Expr::Literal(Lit::Integer(n)),
        Frame(inner) => Expr::Frame(inner),
    }
}

// A draft with the number of its frames.
#[derive(Drop)]
struct Counted {
    draft: Draft,
    frames: usize,
    ghost counted: { frames ≡ length (draft_frames draft) },
}

impl Counted {
    fn new(alloc: Global) -> Counted {
        Counted {
            draft: Draft::new(alloc),
            frames: 1,
        }
    }

    fn frame(&mut self, rt: &impl Abort, parent: u32) -> Result<(), OutOfMemory> {
        assert!(rt; (parent as usize) < self.frames);
        let frame = self.draft.frame(parent)?;
        self.frames = frame as usize + 1;
        Ok(())
    }

    fn define(
        &mut self,
        rt: &impl Abort,
        frame: u32,
        name: Text,
        given: Given,
    ) -> Result<(), OutOfMemory> {
        assert!(rt; (frame as usize) < self.frames);
        self.draft.define(frame, name, expression(given))
    }
}

/// Definitions in the order in which they are made: a frame, a name and what it is.
type Rows<'a> = &'a [(u32, &'a [u8], Given)];

// A draft with frames of these parents, and with the rows defined one after another.
fn draft_of(
    rt: &impl Abort,
    alloc: Global,
    parents: &[u32],
    rows: Rows,
) -> Result<Draft, OutOfMemory> {
    let mut counted = Counted::new(alloc);
    for parent in parents {
        counted.frame(rt, *parent)?;
    }
    for (frame, name, given) in rows {
        let name = Text::from_bytes(alloc, name)?;
        counted.define(rt, *frame, name, *given)?;
    }
    Ok(counted.draft)
}

fn assert_parent(rt: &impl Abort, ad: &Ad, frame: u32, wanted: Option<u32>) {
    assert!(rt; frame < ad.frames());
    assert_eq!(rt; ad.parent(frame), wanted);
}

const OUT_OF_ORDER: [(u32, &'static [u8], Given); 5] = [
    (0, b"Machine", Frame(2)),
    (0, b"Owner", Frame(1)),
    (2, b"Disk", Frame(3)),
    (3, b"Size", Integer(7)),
    (1, b"Name", Integer(8)),
];

#[test]
fn frames_are_numbered_by_brackets(rt: HostRuntime) -> Result<(), Fail> {
    let ad = draft_of(&rt, rt.alloc(), &[0, 0, 2], &OUT_OF_ORDER)?.finish()?;
    assert_parent(&rt, &ad, 1, Some(0));
    assert_parent(&rt, &ad, 2, Some(1));
    assert_parent(&rt, &ad, 3, Some(0));
    let text = print_ad(rt.alloc(), &ad, 0)?;
    let wanted = b"[ Machine = [ Disk = [ Size = 7 ] ]; Owner = [ Name = 8 ] ]";
    assert_eq!(rt; text.bytes(), wanted.as_slice());
    Ok(())
}

// The expression is `[ s = [ ] ]`, and the ad behind it has three frames and nothing in its root.
fn assert_phrase(rt: &impl Abort, alloc: Global, phrase: &Phrase) -> Result<(), OutOfMemory> {
    assert!(rt; phrase.ad.frames() == 3);
    assert!(rt; phrase.ad.count(0) == 0);
    assert!(rt; matches!(phrase.expr, Expr::Frame(1)));
    let text = print_expr(alloc, &phrase.ad, &phrase.expr)?;
    assert_eq!(rt; text.bytes(), b"[ s = [ ] ]".as_slice());
    Ok(())
}

// A root with a definition, and where the ad literal is frame 2 a frame that nothing cites.
#[test]
fn phrases_have_an_empty_root(rt: HostRuntime) -> Result<(), Fail> {
    let rows: Rows = &[(0, b"r", Integer(2)), (2, b"s", Frame(3))];
    let draft = draft_of(&rt, rt.alloc(), &[0, 0, 2], rows)?;
    assert_phrase(&rt, rt.alloc(), &draft.finish_phrase(Expr::Frame(2))?)?;
    let rows: Rows = &[(0, b"r", Integer(2)), (1, b"s", Frame(2))];
    let draft = draft_of(&rt, rt.alloc(), &[0, 1], rows)?;
    assert_phrase(&rt, rt.alloc(), &draft.finish_phrase(Expr::Frame(1))?)?;
    Ok(())
}
