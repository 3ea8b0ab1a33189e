// Scripts over sources and sinks in memory that are cut and fail.
use pool_engine::*;
use pool_text::{OutOfMemory, Text};
use run_fixtures::{Case, Host, host_of, run, run_alone, source_of, texts};
use std::alloc::Global;
use std::process::Abort;
use std::test::Fail;

/// A run over such a source and such a sink, which fail at these calls, ends like this, with what was written.
pub(crate) fn assert_run(rt: &impl Abort, host: Host, case: Case<'_>) -> Result<(), OutOfMemory> {
    let (end, written) = run(host, case.script, case.most, case.fails.0, case.fails.1)?;
    assert!(rt; end == case.end);
    assert_eq!(rt; written.bytes(), case.written);
    Ok(())
}

/// Three commands of seven bytes, and their replies of two.
const THREE: &[u8] = b"eval 1\neval 2\neval 3\n";

const REPLIES: &[u8] = b"1\n2\n3\n";

#[test]
fn each_read_may_fail(rt: HostRuntime) -> Result<(), Fail> {
    for reads in 0..4 {
        let case = Case {
            script: THREE,
            most: (7, 4096),
            fails: (reads + 1, 0),
            end: RunEnd::ReadFault,
            written: &REPLIES[..(2 * reads).min(6)],
        };
        assert_run(&rt, host_of(&rt), case)?;
    }
    Ok(())
}

#[test]
fn each_write_may_fail(rt: HostRuntime) -> Result<(), Fail> {
    for bytes in 0..6 {
        let case = Case {
            script: THREE,
            most: (4096, 1),
            fails: (0, bytes + 1),
            end: RunEnd::WriteFault,
            written: &REPLIES[..bytes],
        };
        assert_run(&rt, host_of(&rt), case)?;
    }
    Ok(())
}

#[test]
fn nothing_is_read_behind_the_end(rt: HostRuntime) -> Result<(), Fail> {
    let case = Case {
        script: THREE,
        most: (7, 4096),
        fails: (5, 0),
        end: RunEnd::Done { refused: 0 },
        written: REPLIES,
    };
    assert_run(&rt, host_of(&rt), case)?;
    Ok(())
}

// A command of 4,096 bytes, with its line feed, and a short one.
fn long_and_short(alloc: Global) -> Result<Text, OutOfMemory> {
    let mut script = Text::from_bytes(alloc, b"eval 1")?;
    for _ in 6..4095 {
        script.append(b" ")?;
    }
    script.append(b"\neval 2\n")?;
    Ok(script)
}

#[test]
fn a_read_offers_room_for_4096_bytes(rt: HostRuntime) -> Result<(), Fail> {
    let script = long_and_short(rt.alloc())?;
    let case = Case {
        script: script.bytes(),
        most: (9999, 4096),
        fails: (2, 0),
        end: RunEnd::ReadFault,
        written: b"1\n",
    };
    assert_run(&rt, host_of(&rt), case)?;
    Ok(())
}

#[test]
fn a_reply_is_offered_before_the_next_read(rt: HostRuntime) -> Result<(), Fail> {
    let (end, _) = run(host_of(&rt), THREE, (7, 4096), 2, 1)?;
    assert!(rt; end == RunEnd::WriteFault);
    Ok(())
}

// How a run of a script ends where it is given this word, and what was written.
fn run_with_word(host: Host, word: &[u8]) -> Result<(RunEnd, Text), OutOfMemory> {
    let words = texts(host.alloc, &[word])?;
    let mut source = source_of(host.alloc, b"eval 1", 4096, 0)?;
    let ran = run_alone(host, &words, &mut source, (4096, 0));
    drop(source);
    ran
}

#[test]
fn any_word_is_wrong(rt: HostRuntime) -> Result<(), Fail> {
    let (end, written) = run_with_word(host_of(&rt), b"--mail")?;
    assert!(rt; end == RunEnd::BadWords);
    assert!(rt; written.bytes().is_empty());
    Ok(())
}

const STATUSES: [(RunEnd, u8); 7] = [
    (RunEnd::Done { refused: 0 }, 0),
    (RunEnd::Done { refused: 9 }, 1),
    (RunEnd::BadWords, 2),
    (RunEnd::ReadFault, 3),
    (RunEnd::WriteFault, 4),
    (RunEnd::TooLong, 5),
    (RunEnd::OutOfMemory, 6),
];

#[test]
fn statuses(rt: HostRuntime) {
    for (end, status) in STATUSES {
        assert_eq!(rt; end.status(), status);
    }
}
