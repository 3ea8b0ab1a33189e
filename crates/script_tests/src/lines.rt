// The lines of inputs that come whole and in pieces; a line is written with a bar behind.
ghost use Rattle.std.specs.Prelude.{◌≡◌, ◌<◌, false};

use pool_script::{Line, Lines, ended_lines_come_first, lines_are_no_more_than_bytes};
use pool_text::{OutOfMemory, Text};
use std::alloc::Global;
use std::process::Abort;
use std::test::Fail;

const INPUTS: [(&[u8], &[u8]); 5] = [
    (b"", b""),
    (b"\n \t\n# a\n\r\n", b"| \t|# a||"),
    (b"ask 1 1\nshow\r\nshow\r", b"ask 1 1|show|show|"),
    (b"show\r\r\n\r\r", b"show\r|\r|"),
    (b"a\rb\n.\n\x00\xff\n\n", b"a\rb|.|\x00\xff||"),
];

/// The input in pieces of each length gives these lines.
fn assert_lines(rt: &impl Abort, alloc: Global, input: &[u8], wanted: &[u8]) -> Result<(), Fail> {
    for most in [65_536, 1, 2, 3, 7] {
        let read = read_lines(alloc, input, most)?;
        assert!(rt;
            read.bytes() == wanted,
            "{input:?} in pieces of {most}: {read:?}"
        );
    }
    Ok(())
}

#[test]
fn lines_are_the_same_however_they_are_cut(rt: HostRuntime) -> Result<(), Fail> {
    for (input, lines) in INPUTS {
        assert_lines(&rt, rt.alloc(), input, lines)?;
    }
    Ok(())
}

/// Runs of one byte, with what follows them and the lines that they give: whether the first is too long, and the others.
const LIMITS: [(usize, &[u8], bool, &[u8]); 5] = [
    (65_536, b"\nb", false, b"b|"),
    (65_535, b"\r", false, b""),
    (65_537, b"", true, b""),
    (65_536, b"\r\nb", true, b"b|"),
    (200_000, b"\r\n\nb", true, b"|b|"),
];

fn long_line(alloc: Global, count: usize, behind: &[u8]) -> Result<Text, OutOfMemory> {
    let mut input = Text::new(alloc);
    for _ in 0..count {
        input.append(b"a")?;
    }
    input.append(behind)?;
    Ok(input)
}

/// The input in pieces of each length gives lines that begin and end like this.
fn assert_ends(
    rt: &impl Abort,
    alloc: Global,
    input: &[u8],
    first: &[u8],
    others: &[u8],
) -> Result<(), Fail> {
    for most in [1_000_000, 1, 1000] {
        let read = read_lines(alloc, input, most)?;
        assert!(rt; read.bytes().starts_with(first), "in pieces of {most}");
        assert!(rt; read.bytes().ends_with(others), "in pieces of {most}");
    }
    Ok(())
}

#[test]
fn a_long_line_is_one_line(rt: HostRuntime) -> Result<(), Fail> {
    for (count, behind, long, others) in LIMITS {
        let input = long_line(rt.alloc(), count, behind)?;
        let first: &[u8] = if long { b"too long|" } else { b"a" };
        assert_ends(&rt, rt.alloc(), input.bytes(), first, others)?;
    }
    Ok(())
}

#[test]
fn laws_are_called(_rt: HostRuntime) -> Result<(), Fail> {
    ended_lines_come_first();
    lines_are_no_more_than_bytes();
    Ok(())
}

/// The lines of the input in pieces of at most `most` bytes, each taken as soon as it has ended.
fn read_lines(alloc: Global, input: &[u8], most: usize) -> Result<Text, OutOfMemory>
    requires { 0 < most }
{
    let mut lines = Lines::new(alloc);
    let mut written = Text::new(alloc);
    let mut left = input;
    while !left.is_empty() {
        let (piece, behind) = left.split_at(most.min(left.len()));
        lines.feed(piece)?;
        take_all(&mut lines, &mut written)?;
        left = behind;
    }
    lines.end()?;
    take_all(&mut lines, &mut written)?;
    Ok(written)
}

fn take_all(lines: &mut Lines, written: &mut Text) -> Result<(), OutOfMemory>
    ensures { lines.new.over ≡ lines.old.over }
{
    while let Some(line) = lines.take() {
        match line {
            Line::Words(text) => written.append(text.bytes())?,
            Line::TooLong => written.append(b"too long")?,
        }
        written.append(b"|")?;
    }
    Ok(())
}
