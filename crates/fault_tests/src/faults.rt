// Each fault in its turn: how a run ends, and what was written. The scripts that are large are made by loops.
use pool_engine::RunEnd;
use pool_text::{OutOfMemory, Text, append_count};
use run_fixtures::{Case, Host, host_of, run};
use std::alloc::Global;
use std::process::Abort;
use std::test::Fail;

const CASES: [Case<'static>; 8] = [
    // The second read fails, and then the first.
    Case {
        script: b"eval 1\neval 2\n",
        most: (7, 4096),
        fails: (2, 0),
        end: RunEnd::ReadFault,
        written: b"1\n",
    },
    Case {
        script: b"eval 1\neval 2\n",
        most: (7, 4096),
        fails: (1, 0),
        end: RunEnd::ReadFault,
        written: b"",
    },
    // A last line without its line feed is answered at the end of the input alone.
    Case {
        script: b"eval 1",
        most: (6, 4096),
        fails: (2, 0),
        end: RunEnd::ReadFault,
        written: b"",
    },
    Case {
        script: b"eval 1",
        most: (6, 4096),
        fails: (0, 0),
        end: RunEnd::Done { refused: 0 },
        written: b"1\n",
    },
    // A write fails within the first reply, and then within the second.
    Case {
        script: b"eval 12\neval 3\n",
        most: (4096, 1),
        fails: (0, 2),
        end: RunEnd::WriteFault,
        written: b"1",
    },
    Case {
        script: b"eval 12\neval 3\n",
        most: (4096, 1),
        fails: (0, 4),
        end: RunEnd::WriteFault,
        written: b"12\n",
    },
    // The input ends within a block, and then within the line that ends one.
    Case {
        script: b"query\n[ ]\n",
        most: (4096, 4096),
        fails: (0, 0),
        end: RunEnd::Done { refused: 1 },
        written: b"refused 4 block not ended\n",
    },
    Case {
        script: b"query\n[ ]\n.",
        most: (4096, 4096),
        fails: (0, 0),
        end: RunEnd::Done { refused: 0 },
        written: b"hits 0\n",
    },
];

// A run over such a source and such a sink, which fail at these calls, ends like this, with what was written.
fn assert_run(rt: &impl Abort, host: Host, case: Case<'_>) -> Result<(), OutOfMemory> {
    let (end, written) = run(host, case.script, case.most, case.fails.0, case.fails.1)?;
    assert!(rt; end == case.end);
    assert_eq!(rt; written.bytes(), case.written);
    Ok(())
}

#[test]
fn each_fault_in_its_turn(rt: HostRuntime) -> Result<(), Fail> {
    for case in CASES {
        assert_run(&rt, host_of(&rt), case)?;
    }
    Ok(())
}

// A run of a script without a fault refuses so many commands, and writes this.
fn assert_written(
    rt: &impl Abort,
    host: Host,
    script: &[u8],
    refused: u64,
    written: &[u8],
) -> Result<(), OutOfMemory> {
    let case = Case {
        script,
        most: (4096, 4096),
        fails: (0, 0),
        end: RunEnd::Done { refused },
        written,
    };
    assert_run(rt, host, case)
}

// The text so many times.
fn repeated(alloc: Global, text: &[u8], count: usize) -> Result<Text, OutOfMemory> {
    let mut whole = Text::new(alloc);
    for _ in 0..count {
        whole.append(text)?;
    }
    Ok(whole)
}

#[test]
fn a_line_of_65536_bytes_is_read(rt: HostRuntime) -> Result<(), Fail> {
    let mut line = repeated(rt.alloc(), b"xxxxxxxxxxxxxxxx", 4096)?;
    line.append(b"\n")?;
    assert_written(
        &rt,
        host_of(&rt),
        line.bytes(),
        1,
        b"refused 2 unknown command\n",
    )?;
    let mut longer = Text::from_bytes(rt.alloc(), b"x")?;
    longer.append(line.bytes())?;
    assert_written(
        &rt,
        host_of(&rt),
        longer.bytes(),
        1,
        b"refused 1 line too long\n",
    )?;
    Ok(())
}

// A name with a number behind it.
fn append_name(script: &mut Text, name: &[u8], i: u64) -> Result<(), OutOfMemory> {
    script.append(name)?;
    append_count(script, i)
}

// Queries an ad `x` whose attributes `X1` to that of this number are each twice the one before.
fn doublings(alloc: Global, count: u64) -> Result<Text, OutOfMemory> {
    let mut script = Text::from_bytes(alloc, b"advertise x 600\n[ X0 = 1; ")?;
    for i in 0..count {
        append_doubling(&mut script, i)?;
    }
    append_name(&mut script, b"Requirements = X", count)?;
    script.append(b" > 0 ]\n.\nquery\n[ Requirements = true ]\n.\n")?;
    Ok(script)
}

// `XJ = XI + XI; ` where J is behind I.
fn append_doubling(script: &mut Text, i: u64) -> Result<(), OutOfMemory> {
    append_name(script, b"X", i.saturating_add(1))?;
    append_name(script, b" = X", i)?;
    append_name(script, b" + X", i)?;
    script.append(b"; ")
}

#[test]
fn doublings_take_no_time(rt: HostRuntime) -> Result<(), Fail> {
    let script = doublings(rt.alloc(), 22)?;
    assert_written(
        &rt,
        host_of(&rt),
        script.bytes(),
        0,
        b"advertised x\nhits 1\nx 0\n",
    )?;
    let longer = doublings(rt.alloc(), 23)?;
    assert_written(
        &rt,
        host_of(&rt),
        longer.bytes(),
        0,
        b"advertised x\nhits 0\n",
    )?;
    Ok(())
}

// `XJ = XI + XI and so on; ` with 32 times `XI`, where J is behind I.
fn append_wide_sum(script: &mut Text, i: u64) -> Result<(), OutOfMemory> {
    append_name(script, b"X", i.saturating_add(1))?;
    append_name(script, b" = X", i)?;
    for _ in 1..32 {
        append_name(script, b" + X", i)?;
    }
    script.append(b"; ")
}

#[test]
fn wide_sums_take_no_time(rt: HostRuntime) -> Result<(), Fail> {
    let mut script = Text::from_bytes(rt.alloc(), b"advertise x 600\n[ X0 = 1; ")?;
    for i in 0..8 {
        append_wide_sum(&mut script, i)?;
    }
    script.append(b"]\n.\nevalin x X8\n")?;
    assert_written(
        &rt,
        host_of(&rt),
        script.bytes(),
        0,
        b"advertised x\n1099511627776\n",
    )?;
    Ok(())
}

// Ten thousand ads that decide a test of their memory.
fn small_machines(alloc: Global) -> Result<Text, OutOfMemory> {
    let mut script = Text::new(alloc);
    for i in 0..10_000 {
        append_name(&mut script, b"advertise m", i)?;
        script.append(b" 600\n[ Memory = 1; Requirements = true ]\n.\n")?;
    }
    Ok(script)
}

// A query whose requirements test the memory, and copy 29 million bytes where they are evaluated.
fn heavy_query(alloc: Global) -> Result<Text, OutOfMemory> {
    let mut query = Text::from_bytes(alloc, b"query\n[ S0 = \"0123456789abcdef\"; ")?;
    for i in 0..11 {
        append_twice(&mut query, i)?;
    }
    for i in 0..900 {
        append_name(&mut query, b"P", i)?;
        query.append(b" = strcat(S11, \"\"); ")?;
    }
    query.append(b"Requirements = sum({ size(P0)")?;
    for i in 1..900 {
        append_name(&mut query, b", size(P", i)?;
        query.append(b")")?;
    }
    query.append(b" }) > 0 && TARGET.Memory >= 64 ]\n.\n")?;
    Ok(query)
}

// `SJ = strcat(SI, SI); ` where J is behind I.
fn append_twice(query: &mut Text, i: u64) -> Result<(), OutOfMemory> {
    append_name(query, b"S", i.saturating_add(1))?;
    append_name(query, b" = strcat(S", i)?;
    append_name(query, b", S", i)?;
    query.append(b"); ")
}

// The replies to the ads, and to so many queries that hit none.
fn no_hits(alloc: Global, queries: usize) -> Result<Text, OutOfMemory> {
    let mut written = Text::new(alloc);
    for i in 0..10_000 {
        append_name(&mut written, b"advertised m", i)?;
        written.append(b"\n")?;
    }
    let hits = repeated(alloc, b"hits 0\n", queries)?;
    written.append(hits.bytes())?;
    Ok(written)
}

#[test]
fn decided_docks_evaluate_nothing(rt: HostRuntime) -> Result<(), Fail> {
    let mut script = small_machines(rt.alloc())?;
    let query = heavy_query(rt.alloc())?;
    let queries = repeated(rt.alloc(), query.bytes(), 20)?;
    script.append(queries.bytes())?;
    let written = no_hits(rt.alloc(), 20)?;
    assert_written(&rt, host_of(&rt), script.bytes(), 0, written.bytes())?;
    Ok(())
}
