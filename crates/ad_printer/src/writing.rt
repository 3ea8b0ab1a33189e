// The text of expressions and frames, appended piece by piece. `turns` bounds the descent through frames; an ad's number
// of frames is enough of them.
ghost use Rattle.std.specs.Prelude.{◌≡◌, ◌<◌, ◌∷◌, [], codes, length, OnOk};
ghost use Rattle.ad_lexer.specs.Tokens.{blank};
ghost use Rattle.ad_tree.specs.Ad.{ad_frames};
ghost use Rattle.ad_tree.specs.Frames.{attributes_at};
ghost use Rattle.ad_tree.specs.Inline.{opened};
ghost use Rattle.ad_tree.specs.Tree.{binary, call as call_label, choice, list as list_label, node, one, pack, select, subscript, three, tree, trees, two};
ghost use Rattle.ad_tree.specs.Tree.{unary};
ghost use Rattle.ad_printer.specs.Printed.{pieces};
ghost use Rattle.ad_printer.specs.Writing.{Adds, definition_in, definitions_in, part_in, pieces_in, row_in};

use crate::operators::{infix_text, loose, precedence, prefix_text};
use crate::pieces::{add, add_few};
use crate::quoting::{write_literal, write_name, write_reference};
use ad_tree::{Ad, Expr, Exprs};
use pool_text::{BinOp, OutOfMemory, UnOp};

/// How loosely the operand of an operator before it may bind without parentheses, and a condition, and anything.
const OPERAND: u8 = 2;

const CONDITION: u8 = 12;

const LAST_PRECEDENCE: u8 = 13;

// How the expressions of a row stand together: the bytes between each two, and how loosely the first and the others may bind
// without parentheses.
#[derive(Clone, Copy)]
struct Divider<'a> {
    between: &'a [u8],
    first: u8,
    other: u8,
}

/// An expression that stands in a frame of the ad. What is called here stands apart, so that to choose among the kinds takes no
/// place on the stack.
#[cycle(writing)]
pub fn write(out: &mut Vec<u8>, ad: &Ad, turns: u32, expr: &Expr) -> Result<(), OutOfMemory>
    ensures { OnOk result (Adds out.old.items (pieces_in (ad_frames ad.now) turns (tree expr.now)) out.new.items) }
{
    match expr {
        Expr::Literal(literal) => write_literal(out, literal),
        Expr::Name(scope, name) => write_reference(out, *scope, name.bytes()),
        Expr::Unary(op, a) => write_unary(out, ad, turns, *op, a),
        Expr::Binary(op, a, b) => write_binary(out, ad, turns, *op, a, b),
        Expr::And(list) => write_and(out, ad, turns, list),
        Expr::Or(list) => write_or(out, ad, turns, list),
        Expr::Cond(a, b, c) => write_choice(out, ad, turns, a, b, c),
        Expr::Select(a, name) => write_selection(out, ad, turns, a, name.bytes()),
        Expr::Subscript(a, b) => write_subscript(out, ad, turns, a, b),
        Expr::Call(name, list) => write_call(out, ad, turns, name.bytes(), list),
        Expr::List(list) => write_list(out, ad, turns, list),
        Expr::Frame(frame) => write_frame(out, ad, turns, *frame),
    }
}

/// An operand, in parentheses where it binds more loosely than `bound`.
#[cycle(writing)]
fn write_part(
    out: &mut Vec<u8>,
    ad: &Ad,
    turns: u32,
    bound: u8,
    expr: &Expr,
) -> Result<(), OutOfMemory>
    ensures { OnOk result (Adds out.old.items (part_in (ad_frames ad.now) turns bound (tree expr.now)) out.new.items) }
{
    if loose(expr) <= bound {
        return write(out, ad, turns, expr);
    }
    add(out, b"(")?;
    write(out, ad, turns, expr)?;
    add(out, b")")?;
    Ok(())
}

#[cycle(writing)]
#[inline(never)]
fn write_unary(
    out: &mut Vec<u8>,
    ad: &Ad,
    turns: u32,
    op: UnOp,
    a: &Expr,
) -> Result<(), OutOfMemory>
    ensures { OnOk result (Adds out.old.items (pieces_in (ad_frames ad.now) turns (node (unary op) (one (tree a.now)))) out.new.items) }
{
    add(out, prefix_text(op))?;
    write_part(out, ad, turns, OPERAND, a)?;
    Ok(())
}

#[cycle(writing)]
#[inline(never)]
fn write_binary(
    out: &mut Vec<u8>,
    ad: &Ad,
    turns: u32,
    op: BinOp,
    a: &Expr,
    b: &Expr,
) -> Result<(), OutOfMemory>
    ensures { OnOk result (Adds out.old.items (pieces_in (ad_frames ad.now) turns (node (binary op) (two (tree a.now) (tree b.now)))) out.new.items) }
{
    let level = precedence(op);
    write_part(out, ad, turns, 2 + level, a)?;
    add_few(out, infix_text(op))?;
    write_part(out, ad, turns, 1 + level, b)?;
    Ok(())
}

/// A chain of `&&`.
#[cycle(writing)]
#[inline(never)]
fn write_and(out: &mut Vec<u8>, ad: &Ad, turns: u32, list: &Exprs) -> Result<(), OutOfMemory>
    ensures { OnOk result (Adds out.old.items (row_in (ad_frames ad.now) turns (blank (codes " && ") ∷ []) 11 10 (trees list.now)) out.new.items) }
{
    let divider = Divider {
        between: b" && ",
        first: 11,
        other: 10,
    };
    write_row(out, ad, turns, divider, list)
}

/// A chain of `||`.
#[cycle(writing)]
#[inline(never)]
fn write_or(out: &mut Vec<u8>, ad: &Ad, turns: u32, list: &Exprs) -> Result<(), OutOfMemory>
    ensures { OnOk result (Adds out.old.items (row_in (ad_frames ad.now) turns (blank (codes " || ") ∷ []) 12 11 (trees list.now)) out.new.items) }
{
    let divider = Divider {
        between: b" || ",
        first: 12,
        other: 11,
    };
    write_row(out, ad, turns, divider, list)
}

#[cycle(writing)]
#[inline(never)]
fn write_choice(
    out: &mut Vec<u8>,
    ad: &Ad,
    turns: u32,
    condition: &Expr,
    first: &Expr,
    second: &Expr,
) -> Result<(), OutOfMemory>
    ensures { OnOk result (Adds out.old.items
        (pieces_in (ad_frames ad.now) turns (node choice (three (tree condition.now) (tree first.now) (tree second.now)))) out.new.items) }
{
    write_part(out, ad, turns, CONDITION, condition)?;
    add(out, b" ? ")?;
    write_part(out, ad, turns, LAST_PRECEDENCE, first)?;
    add(out, b" : ")?;
    write_part(out, ad, turns, LAST_PRECEDENCE, second)?;
    Ok(())
}

#[cycle(writing)]
#[inline(never)]
fn write_selection(
    out: &mut Vec<u8>,
    ad: &Ad,
    turns: u32,
    base: &Expr,
    name: &[u8],
) -> Result<(), OutOfMemory>
    ensures { OnOk result (Adds out.old.items (pieces_in (ad_frames ad.now) turns (node (select name.now) (one (tree base.now)))) out.new.items) }
{
    write_part(out, ad, turns, 0, base)?;
    add(out, b".")?;
    write_name(out, name)?;
    Ok(())
}

#[cycle(writing)]
#[inline(never)]
fn write_subscript(
    out: &mut Vec<u8>,
    ad: &Ad,
    turns: u32,
    base: &Expr,
    place: &Expr,
) -> Result<(), OutOfMemory>
    ensures { OnOk result (Adds out.old.items (pieces_in (ad_frames ad.now) turns (node subscript (two (tree base.now) (tree place.now)))) out.new.items) }
{
    write_part(out, ad, turns, 1, base)?;
    add(out, b"[")?;
    write_part(out, ad, turns, LAST_PRECEDENCE, place)?;
    add(out, b"]")?;
    Ok(())
}

#[cycle(writing)]
#[inline(never)]
fn write_call(
    out: &mut Vec<u8>,
    ad: &Ad,
    turns: u32,
    name: &[u8],
    list: &Exprs,
) -> Result<(), OutOfMemory>
    ensures { OnOk result (Adds out.old.items (pieces_in (ad_frames ad.now) turns (node (call_label name.now) (pack (trees list.now)))) out.new.items) }
{
    add(out, name)?;
    add(out, b"(")?;
    let divider = Divider {
        between: b", ",
        first: LAST_PRECEDENCE,
        other: LAST_PRECEDENCE,
    };
    write_row(out, ad, turns, divider, list)?;
    add(out, b")")?;
    Ok(())
}

#[cycle(writing)]
#[inline(never)]
fn write_list(out: &mut Vec<u8>, ad: &Ad, turns: u32, list: &Exprs) -> Result<(), OutOfMemory>
    ensures { OnOk result (Adds out.old.items (pieces_in (ad_frames ad.now) turns (node list_label (pack (trees list.now)))) out.new.items) }
{
    if list.len() == 0 {
        add(out, b"{ }")?;
        return Ok(());
    }
    add(out, b"{ ")?;
    let divider = Divider {
        between: b", ",
        first: LAST_PRECEDENCE,
        other: LAST_PRECEDENCE,
    };
    write_row(out, ad, turns, divider, list)?;
    add(out, b" }")?;
    Ok(())
}

/// The expressions of a row, divided so.
#[cycle(writing)]
fn write_row(
    out: &mut Vec<u8>,
    ad: &Ad,
    turns: u32,
    divider: Divider<'_>,
    list: &Exprs,
) -> Result<(), OutOfMemory>
    ensures { OnOk result (Adds out.old.items
        (row_in (ad_frames ad.now) turns (blank divider.entry.between.now ∷ []) divider.entry.first divider.entry.other (trees list.now)) out.new.items) }
{
    if list.len() == 0 {
        return Ok(());
    }
    write_part(out, ad, turns, divider.first, list.at(0))?;
    for i in 1..list.len() {
        add_few(out, divider.between)?;
        write_part(out, ad, turns, divider.other, list.at(i))?;
    }
    Ok(())
}

/// A frame of the ad as an ad literal: `[ ]` where no turns are left or there is no such frame.
#[cycle(writing)]
#[inline(never)]
pub fn write_frame(out: &mut Vec<u8>, ad: &Ad, turns: u32, frame: u32) -> Result<(), OutOfMemory>
    ensures { OnOk result (Adds out.old.items (pieces (opened (ad_frames ad.now) turns frame)) out.new.items) }
{
    if turns == 0 || frame >= ad.frames() || ad.count(frame) == 0 {
        add(out, b"[ ]")?;
        return Ok(());
    }
    add(out, b"[ ")?;
    write_definitions(out, ad, turns - 1, frame)?;
    add(out, b" ]")?;
    Ok(())
}

#[cycle(writing)]
fn write_definitions(out: &mut Vec<u8>, ad: &Ad, turns: u32, frame: u32) -> Result<(), OutOfMemory>
    requires frame { frame < length (ad_frames ad.now) }
    requires some { 0 < length (attributes_at (ad_frames ad.now) frame) }
    ensures { OnOk result (Adds out.old.items (definitions_in (ad_frames ad.now) turns (attributes_at (ad_frames ad.now) frame)) out.new.items) }
{
    write_definition(out, ad, turns, ad.name(frame, 0).bytes(), ad.expr(frame, 0))?;
    for attr in 1..ad.count(frame) {
        add(out, b"; ")?;
        write_definition(
            out,
            ad,
            turns,
            ad.name(frame, attr).bytes(),
            ad.expr(frame, attr),
        )?;
    }
    Ok(())
}

#[cycle(writing)]
fn write_definition(
    out: &mut Vec<u8>,
    ad: &Ad,
    turns: u32,
    name: &[u8],
    expr: &Expr,
) -> Result<(), OutOfMemory>
    ensures { OnOk result (Adds out.old.items (definition_in (ad_frames ad.now) turns name.now (tree expr.now)) out.new.items) }
{
    write_name(out, name)?;
    add(out, b" = ")?;
    write(out, ad, turns, expr)?;
    Ok(())
}
