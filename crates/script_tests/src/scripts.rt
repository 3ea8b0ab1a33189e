// The longest lines and blocks of a script that comes whole and in pieces.
ghost use Rattle.std.specs.Prelude.{◌≡◌, ◌<◌, IfSome, length};

use pool_script::{Command, Script};
use pool_text::{OutOfMemory, Text};
use std::alloc::Global;
use std::process::Abort;
use std::test::Fail;

/// Texts around a run of one byte, with what they give: before, byte, count, behind, the commands with a bar behind each.
const LIMITS: [(&[u8], u8, usize, &[u8], &[u8]); 10] = [
    (b"eval ", b'1', 65_531, b"\n", b"eval|"),
    (b"eval ", b'1', 65_532, b"\n", b"refused 1|"),
    (b"eval ", b'1', 65_530, b"\r\n", b"eval|"),
    (b"eval ", b'1', 65_531, b"\r\n", b"refused 1|"),
    (b"#", b' ', 65_535, b"\nlist", b"list|"),
    (b"#", b' ', 65_536, b"\nlist", b"refused 1|list|"),
    (b"query\n", b'1', 65_535, b"\r\n.\n", b"query|"),
    (b"query\n", b'1', 65_536, b"\n.\nlist\n", b"refused 5|list|"),
    (b"query\n", b'1', 65_536, b"\n", b"refused 4|"),
    (b"query", b' ', 65_532, b"\nlist", b"refused 1|list|"),
];

/// A text around a run of one byte.
fn with_run(
    alloc: Global,
    before: &[u8],
    byte: u8,
    count: usize,
    behind: &[u8],
) -> Result<Text, OutOfMemory> {
    let mut input = Text::from_bytes(alloc, before)?;
    for _ in 0..count {
        input.append(&[byte])?;
    }
    input.append(behind)?;
    Ok(input)
}

fn kind(command: &Command) -> &'static [u8] {
    match command {
        Command::List => b"list|",
        Command::Eval(_) => b"eval|",
        Command::Query(_) => b"query|",
        Command::Bad(1) => b"refused 1|",
        Command::Bad(4) => b"refused 4|",
        Command::Bad(5) => b"refused 5|",
        _ => b"another|",
    }
}

fn next_kind(script: &mut Script) -> Option<&'static [u8]>
    ensures over { script.new.over ≡ script.old.over }
    ensures fewer { IfSome result (λ kind. length script.new.waiting < length script.old.waiting) }
{
    match script.take() {
        Some(command) => Some(kind(&command)),
        None => None,
    }
}

fn take_all(script: &mut Script, kinds: &mut Text) -> Result<(), OutOfMemory>
    ensures { script.new.over ≡ script.old.over }
{
    while let Some(kind) = next_kind(script) {
        kinds.append(kind)?;
    }
    Ok(())
}

/// The commands of the input in pieces of at most `most` bytes, each taken as soon as it has ended.
fn read_commands(alloc: Global, input: &[u8], most: usize) -> Result<Text, OutOfMemory>
    requires { 0 < most }
{
    let mut script = Script::new(alloc);
    let mut kinds = Text::new(alloc);
    let mut left = input;
    while !left.is_empty() {
        let (piece, behind) = left.split_at(most.min(left.len()));
        script.feed(piece)?;
        take_all(&mut script, &mut kinds)?;
        left = behind;
    }
    script.end()?;
    take_all(&mut script, &mut kinds)?;
    Ok(kinds)
}

/// The input in pieces of each length gives these commands.
fn assert_commands(
    rt: &impl Abort,
    alloc: Global,
    input: &[u8],
    wanted: &[u8],
) -> Result<(), Fail> {
    for most in [1_000_000, 1, 1000] {
        let read = read_commands(alloc, input, most)?;
        assert_eq!(rt; read.bytes(), wanted, "in pieces of {most}");
    }
    Ok(())
}

#[test]
fn lines_and_blocks_have_65536_bytes_at_most(rt: HostRuntime) -> Result<(), Fail> {
    for (before, byte, count, behind, commands) in LIMITS {
        let input = with_run(rt.alloc(), before, byte, count, behind)?;
        assert_commands(&rt, rt.alloc(), input.bytes(), commands)?;
    }
    Ok(())
}
