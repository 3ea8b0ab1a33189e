// Schedules of the claiming protocol with their replies, over sources and sinks in memory that are cut and fail.
use pool_engine::RunEnd;
use pool_io::MemorySource;
use pool_text::{OutOfMemory, Text};
use run_fixtures::{Case, Host, host_of, run_alone, source_of, texts};
use std::process::Abort;
use std::test::Fail;

// How a run of one resource and two customers ends over a source and a sink that take so many bytes a call and fail at one
// call each, and what was written.
fn run(
    host: Host,
    schedule: &[u8],
    most: (usize, usize),
    source_fails: usize,
    sink_fails: usize,
) -> Result<(RunEnd, Text), OutOfMemory> {
    let mut source = source_of(host.alloc, schedule, most.0, source_fails)?;
    let ran = run_over(host, &mut source, (most.1, sink_fails));
    drop(source);
    ran
}

// The same over a sink that takes so many bytes a call and fails at one call.
fn run_over(
    host: Host,
    source: &mut MemorySource,
    sink: (usize, usize),
) -> Result<(RunEnd, Text), OutOfMemory> {
    let words = texts(host.alloc, &[b"--wire", b"1", b"2"])?;
    let ran = run_alone(host, &words, source, sink);
    drop(words);
    ran
}

// A run over such a source and such a sink, which fail at these calls, ends like this, with what was written.
fn assert_run(rt: &impl Abort, host: Host, case: Case<'_>) -> Result<(), OutOfMemory> {
    let (end, written) = run(host, case.script, case.most, case.fails.0, case.fails.1)?;
    assert!(rt; end == case.end);
    assert_eq!(rt; written.bytes(), case.written);
    Ok(())
}

// A schedule is answered like this, with so many refusals, however its bytes are cut.
fn assert_answered(
    rt: &impl Abort,
    host: Host,
    schedule: &[u8],
    refused: u64,
    replies: &[u8],
) -> Result<(), OutOfMemory> {
    let whole = Case {
        script: schedule,
        most: (4096, 4096),
        fails: (0, 0),
        end: RunEnd::Done { refused },
        written: replies,
    };
    assert_run(rt, host, whole)?;
    let cut = Case {
        most: (1, 1),
        ..whole
    };
    assert_run(rt, host, cut)
}

/// Schedules with how many lines are refused, and the replies.
const SCHEDULES: [(&[u8], u64, &[u8]); 6] = [
    (b"", 0, b""),
    (b"\n \t\n# ask 1 1\n\r\n  #", 0, b""),
    (
        b"show\r\n\tshow ",
        0,
        b"resource 1 free\ncustomer 1 idle\ncustomer 2 idle\nresource 1 free\ncustomer 1 idle\ncustomer 2 idle\n",
    ),
    (
        b"fly\nASK 1 1\nask\nask 1 2\nask 3 1\nagain 01\nshow 1\nrestart customer\ndeliver 0\n",
        9,
        b"refused 2 unknown command\nrefused 2 unknown command\nrefused 3 wrong words\nrefused 3 wrong words\nrefused 3 wrong words\nrefused 3 wrong words\nrefused 3 wrong words\nrefused 3 wrong words\nrefused 19 no such message\n",
    ),
    (
        b"ask 1 1\ndeliver 1\nask 2 1\ndeliver 3\ndeliver 2\nleave 1\ndeliver 4\ndeliver 1\ndeliver 2\ndeliver 6\nshow\n",
        0,
        b"sent 1 ask 1 1 1\nsent 2 grant 1 1 1\nsent 3 ask 2 1 1\nquiet\nquiet\nsent 4 leave 1 1 1\nsent 5 gone 1 1 1\nsent 6 grant 2 1 1\nsent 7 gone 1 1 1\nquiet\nquiet\nresource 1 held 2 1\ncustomer 1 leaving 1 1\ncustomer 2 holding 1 1\n",
    ),
    (
        b"ask 1 1\ndeliver 1\ndeliver 2\nrestart customer 1\nshow\nagain 1\nask 1 1\nleave 1\nagain 2\ndeliver 9\ndeliver 3\ndeliver 4\nask 1 1",
        4,
        b"sent 1 ask 1 1 1\nsent 2 grant 1 1 1\nquiet\nquiet\nresource 1 held 1 1\ncustomer 1 leaving 1 1\ncustomer 2 idle\nsent 3 leave 1 1 1\nrefused 16 customer not idle\nrefused 17 nothing to leave\nrefused 18 nothing to send\nrefused 19 no such message\nsent 4 gone 1 1 1\nquiet\nsent 5 ask 1 1 2\n",
    ),
];

#[test]
fn lines_are_answered(rt: HostRuntime) -> Result<(), Fail> {
    for (schedule, refused, replies) in SCHEDULES {
        assert_answered(&rt, host_of(&rt), schedule, refused, replies)?;
    }
    Ok(())
}

/// Three lines of eight bytes, and their replies.
const THREE: &[u8] = b"again 1\nagain 2\nleave 1\n";

const REPLIES: &[u8] =
    b"refused 18 nothing to send\nrefused 18 nothing to send\nrefused 17 nothing to leave\n";

/// How many bytes of the replies answer so many lines.
const ANSWERED: [usize; 4] = [0, 27, 54, 82];

#[test]
fn each_read_may_fail(rt: HostRuntime) -> Result<(), Fail> {
    for (lines, bytes) in ANSWERED.iter().enumerate() {
        let case = Case {
            script: THREE,
            most: (8, 4096),
            fails: (lines + 1, 0),
            end: RunEnd::ReadFault,
            written: &REPLIES[..*bytes],
        };
        assert_run(&rt, host_of(&rt), case)?;
    }
    Ok(())
}

#[test]
fn each_write_may_fail(rt: HostRuntime) -> Result<(), Fail> {
    for bytes in 0..REPLIES.len() {
        let case = Case {
            script: THREE,
            most: (4096, 1),
            fails: (0, bytes + 1),
            end: RunEnd::WriteFault,
            written: &REPLIES[..bytes],
        };
        assert_run(&rt, host_of(&rt), case)?;
    }
    Ok(())
}

#[test]
fn a_reply_is_offered_before_the_next_read(rt: HostRuntime) -> Result<(), Fail> {
    let (end, _) = run(host_of(&rt), THREE, (8, 4096), 2, 1)?;
    assert!(rt; end == RunEnd::WriteFault);
    Ok(())
}
