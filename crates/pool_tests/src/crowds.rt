// Pools with as many ads, as much text and as many faults as there may be.
use crate::runs::assert_run;
use pool_engine::RunEnd;
use pool_text::{OutOfMemory, Text, append_count};
use run_fixtures::{Case, Host, host_of, run};
use std::alloc::Global;
use std::process::Abort;
use std::test::Fail;

// Ads `m0`, `m1` and so on, where that of number i has the attribute `A` with the last three digits of i behind it, which is i.
fn machines(alloc: Global, count: u64) -> Result<Text, OutOfMemory> {
    let mut script = Text::new(alloc);
    for i in 0..count {
        append_machine(&mut script, i)?;
    }
    Ok(script)
}

fn append_machine(script: &mut Text, i: u64) -> Result<(), OutOfMemory> {
    script.append(b"advertise m")?;
    append_count(script, i)?;
    script.append(b" 600\n[ A")?;
    append_count(script, i % 1000)?;
    script.append(b" = ")?;
    append_count(script, i)?;
    script.append(b"; Requirements = true ]\n.\n")
}

// A run of this script refuses one command, and its last replies are these.
fn assert_last(
    rt: &impl Abort,
    host: Host,
    script: &[u8],
    read: usize,
    last: &[u8],
) -> Result<(), OutOfMemory> {
    let (end, written) = run(host, script, (read, 4096), 0, 0)?;
    assert!(rt; end == RunEnd::Done { refused: 1 });
    assert!(rt; written.bytes().ends_with(last));
    Ok(())
}

/// What is asked of ten thousand ads.
const QUERIES: &[u8] =
    b"query\n[ Requirements = TARGET.A7 >= 5007; Rank = TARGET.A7 ]\n.\nquery\n[ Requirements = TARGET.A12 == 12 || TARGET.A999 is 9999 ]\n.\nadvertise one_more 600\n[ ]\n.\nwithdraw m7\nadvertise one_more 600\n[ ]\n.\nclock 600\n";

const HITS: &[u8] =
    b"advertised m9999\nhits 5\nm9007 9007\nm8007 8007\nm7007 7007\nm6007 6007\nm5007 5007\nhits 2\nm12 0\nm9999 0\nrefused 10 too many ads\nwithdrawn m7\nadvertised one_more\nclock 600 expired 10000\n";

#[test]
fn ten_thousand_ads_of_a_thousand_names(rt: HostRuntime) -> Result<(), Fail> {
    let mut script = machines(rt.alloc(), 10_000)?;
    script.append(QUERIES)?;
    assert_last(&rt, host_of(&rt), script.bytes(), 4096, HITS)?;
    Ok(())
}

// The text of an ad with no attributes that is as long as a block may be.
fn longest_block(alloc: Global) -> Result<Text, OutOfMemory> {
    let mut block = Text::from_bytes(alloc, b"[")?;
    for _ in 0..4095 {
        block.append(b"                ")?;
    }
    block.append(b"             ]\n")?;
    Ok(block)
}

// So many ads of that text.
fn long_texts(alloc: Global, count: u64) -> Result<Text, OutOfMemory> {
    let block = longest_block(alloc)?;
    let mut script = Text::new(alloc);
    for i in 0..count {
        append_text(&mut script, i, block.bytes())?;
    }
    Ok(script)
}

fn append_text(script: &mut Text, i: u64, block: &[u8]) -> Result<(), OutOfMemory> {
    script.append(b"advertise m")?;
    append_count(script, i)?;
    script.append(b" 600\n")?;
    script.append(block)?;
    script.append(b".\n")
}

/// Three ads more, of which the second takes the place of a long one.
const MORE: &[u8] =
    b"advertise one_more 600\n[]\n.\nadvertise m0 600\n[]\n.\nadvertise one_more 600\n[]\n.\n";

const ONE_REFUSED: &[u8] =
    b"advertised m511\nrefused 10 too much ad text\nreplaced m0\nadvertised one_more\n";

#[test]
fn ads_have_32_mebibytes_of_text_together(rt: HostRuntime) -> Result<(), Fail> {
    let mut script = long_texts(rt.alloc(), 512)?;
    script.append(MORE)?;
    assert_last(&rt, host_of(&rt), script.bytes(), 65536, ONE_REFUSED)?;
    Ok(())
}

// Jobs of forty kinds, which an ad tells apart, each with a number, which no ad asks for. One command is refused.
fn jobs_of_forty_kinds(alloc: Global, count: u64) -> Result<Text, OutOfMemory> {
    let mut script = Text::from_bytes(alloc, KINDS)?;
    for i in 1..=count {
        append_job(&mut script, i)?;
    }
    Ok(script)
}

const KINDS: &[u8] =
    b"classes all\nadvertise m 600\n[ Requirements = TARGET.Kind >= 0 || false ]\n.\n";

fn append_job(script: &mut Text, i: u64) -> Result<(), OutOfMemory> {
    script.append(b"submit j")?;
    append_count(script, i)?;
    script.append(b" ann\n[ Kind = ")?;
    append_count(script, i % 40)?;
    script.append(b"; Number = ")?;
    append_count(script, i)?;
    script.append(b"; Requirements = true ]\n.\n")
}

// The lines of the classes of these jobs.
fn forty_classes(alloc: Global, count: u64) -> Result<Text, OutOfMemory> {
    let mut lines = Text::from_bytes(alloc, b"classes 40\n")?;
    for first in 1..=40 {
        append_class(&mut lines, first, count)?;
    }
    Ok(lines)
}

fn append_class(lines: &mut Text, first: u64, count: u64) -> Result<(), OutOfMemory> {
    lines.append(b"class ")?;
    append_count(lines, first)?;
    for i in first..=count {
        if i % 40 == first % 40 {
            lines.append(b" j")?;
            append_count(lines, i)?;
        }
    }
    lines.append(b"\n")
}

#[test]
fn two_thousand_jobs_in_forty_classes(rt: HostRuntime) -> Result<(), Fail> {
    let mut script = jobs_of_forty_kinds(rt.alloc(), 2000)?;
    script.append(b"classes\n")?;
    let classes = forty_classes(rt.alloc(), 2000)?;
    assert_last(&rt, host_of(&rt), script.bytes(), 4096, classes.bytes())?;
    Ok(())
}

/// A script with each command that reads or changes the pool, and its replies.
const ALL: &[u8] = b"\
advertise a 9
[ X = 1; Requirements = true ]
.
show a
list
eval 1 + 1
evalin a X
query
[ Requirements = TARGET.X == 1 ]
.
gang
[ Ports = { [ Label = p; Requirements = TARGET.X == 1 ] } ]
.
submit j ann
[ Requirements = true ]
.
priority ann 7
classes
negotiate
list
jobs
job j
users
why j
claim j
release j
remove j
withdraw a
clock 5
fly
";

const ALL_REPLIES: &[u8] = b"\
advertised a
[ X = 1; Requirements = true ]
ads 1
a 0 9 free
2
1
hits 1
a 0
gang a
submitted j
priority ann 7
classes 1
class 1 j
spin 1 free 1
slice ann 1
offer j ann a
spin 2 free 0
offers 1
ads 1
a 0 9 offered j
jobs 1
j ann matched a
[ Requirements = true ]
users 1
ann 7 idle 0 matched 1 claimed 0
why j ads 1
conjunct 1 holds 1 true
a accepted
claimed j a
released j
removed j
withdrawn a
clock 5 expired 0
refused 2 unknown command
";

#[test]
fn all_commands_are_answered(rt: HostRuntime) -> Result<(), Fail> {
    let case = Case {
        script: ALL,
        most: (16, 16),
        fails: (0, 0),
        end: RunEnd::Done { refused: 1 },
        written: ALL_REPLIES,
    };
    assert_run(&rt, host_of(&rt), case)?;
    let cut = Case {
        most: (1, 1),
        ..case
    };
    assert_run(&rt, host_of(&rt), cut)?;
    Ok(())
}

// A run that fails at these calls ends like this, and what is written is where the replies begin.
fn assert_fails(
    rt: &impl Abort,
    host: Host,
    source_fails: usize,
    sink_fails: usize,
    wanted: RunEnd,
) -> Result<(), OutOfMemory> {
    let (end, written) = run(host, ALL, (16, 16), source_fails, sink_fails)?;
    assert!(rt; end == wanted);
    assert!(rt; ALL_REPLIES.starts_with(written.bytes()));
    Ok(())
}

#[test]
fn each_read_may_fail_among_all_commands(rt: HostRuntime) -> Result<(), Fail> {
    for call in 1..=ALL.len() / 16 + 1 {
        assert_fails(&rt, host_of(&rt), call, 0, RunEnd::ReadFault)?;
    }
    Ok(())
}

#[test]
fn each_write_may_fail_among_all_commands(rt: HostRuntime) -> Result<(), Fail> {
    for call in 1..=ALL_REPLIES.len() / 16 + 1 {
        assert_fails(&rt, host_of(&rt), 0, call, RunEnd::WriteFault)?;
    }
    Ok(())
}
