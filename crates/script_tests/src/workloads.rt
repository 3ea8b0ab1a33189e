// Scripts of workloads and a summary, written out by hand.
use std::test::Fail;
use workload::*;

#[test]
fn the_script_of_one_machine(rt: HostRuntime) -> Result<(), Fail> {
    let script = generated(rt.alloc(), 1)?;
    let wanted = br#"advertise m0 600
[ Arch = "A0"; Memory = 64; Load = Memory / 64; Requirements = TARGET.Owner != "guest" && Load < 9 ]
.
priority alice 1
priority bob 3
query
[ Owner = "q"; Requirements = TARGET.Arch == "A1"; Rank = TARGET.Load ]
.
negotiate
"#;
    assert_eq!(rt; script.bytes(), wanted.as_slice());
    Ok(())
}

#[test]
fn the_script_of_four_machines(rt: HostRuntime) -> Result<(), Fail> {
    let script = generated(rt.alloc(), 4)?;
    let wanted = br#"advertise m0 600
[ Arch = "A0"; Memory = 64; Load = Memory / 64; Requirements = TARGET.Owner != "guest" && Load < 9 ]
.
advertise m1 600
[ Arch = "A1"; Memory = 128; Load = Memory / 64; Requirements = TARGET.Owner != "guest" && Load < 9 ]
.
advertise m2 600
[ Arch = "A2"; Memory = 192; Load = Memory / 64; Requirements = TARGET.Owner != "guest" && Load < 9 ]
.
advertise m3 600
[ Arch = "A3"; Memory = 256; Load = Memory / 64; Requirements = TARGET.Owner != "guest" && Load < 9 ]
.
priority alice 1
priority bob 3
submit j0 alice
[ Owner = "alice"; Requirements = TARGET.Arch == "A0" && TARGET.Memory >= 128; Rank = TARGET.Memory ]
.
submit j1 bob
[ Owner = "bob"; Requirements = TARGET.Arch == "A1" && TARGET.Memory >= 128; Rank = TARGET.Memory ]
.
query
[ Owner = "q"; Requirements = TARGET.Arch == "A1"; Rank = TARGET.Load ]
.
negotiate
"#;
    assert_eq!(rt; script.bytes(), wanted.as_slice());
    Ok(())
}

// A machine has 117 bytes besides the digits of its number, 6,890 for all, and of its size, 5,750 for all. A job has 109 bytes
// besides the digits of its number, 2,890 for all, and its user's name, which stands there twice, 8,000 for all. The other lines
// have 122 bytes.
#[test]
fn the_script_of_the_most_machines(rt: HostRuntime) -> Result<(), Fail> {
    let script = generated(rt.alloc(), 2000)?;
    assert_eq!(rt; script.bytes().len(), 366_652);
    Ok(())
}

#[test]
fn a_summary(rt: HostRuntime) -> Result<(), Fail> {
    let mut summary = Summary::new();
    summary.add(&Summary {
        commands: 9,
        refused: 0,
        hits: 1,
        offers: 0,
        bytes: 126,
    })?;
    summary.add(&Summary {
        commands: 1,
        refused: 0,
        hits: 0,
        offers: 1,
        bytes: 65,
    })?;
    let text = summary.print(rt.alloc())?;
    let wanted = b"commands 10\nrefused 0\nhits 1\noffers 1\nbytes 191\n";
    assert_eq!(rt; text.bytes(), wanted.as_slice());
    let most = Summary {
        bytes: u64::MAX,
        ..Summary::new()
    };
    assert!(rt; summary.add(&most).is_err());
    assert_eq!(rt; summary.bytes, 191);
    Ok(())
}
