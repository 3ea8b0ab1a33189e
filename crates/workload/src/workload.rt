// The script of a workload.
ghost use Rattle.std.specs.Prelude.{◌≡◌, ◌++◌, IfOk, OnOk};
ghost use Rattle.std.specs.List.{flat_map, range_with_len};
ghost use Rattle.workload.specs.Workload as script;

use pool_text::{OutOfMemory, Text, append_count};
use std::alloc::Global;

/// The script of a workload of `n` machines: it advertises them, sets the priorities of two users, submits half as many jobs of
/// theirs, and has a query and a negotiation.
pub fn generated(alloc: Global, n: u64) -> Result<Text, OutOfMemory>
    ensures { IfOk result (λ text. text ≡ script.workload n) }
{
    let mut text = Text::new(alloc);
    append_machines(&mut text, n)?;
    text.append(b"priority alice 1\npriority bob 3\n")?;
    append_jobs(&mut text, n / 2)?;
    text.append(
        b"query\n[ Owner = \"q\"; Requirements = TARGET.Arch == \"A1\"; Rank = TARGET.Load ]\n.\n",
    )?;
    text.append(b"negotiate\n")?;
    Ok(text)
}

/// Appends the machines of the first numbers.
fn append_machines(text: &mut Text, count: u64) -> Result<(), OutOfMemory>
    ensures { OnOk result (text.new ≡ text.old ++ flat_map script.machine (range_with_len 0 count)) }
{
    for i in 0..count {
        append_machine(text, i)?;
    }
    Ok(())
}

/// Appends the machine of a number.
fn append_machine(text: &mut Text, i: u64) -> Result<(), OutOfMemory>
    ensures { OnOk result (text.new ≡ text.old ++ script.machine i) }
{
    text.append(b"advertise m")?;
    append_count(text, i)?;
    text.append(b" 600\n")?;
    append_machine_ad(text, i)?;
    text.append(b"\n.\n")
}

/// Appends the ad of the machine of a number.
#[tactic(auto, unfolding(crate::specs::Workload::machine_ad))]
fn append_machine_ad(text: &mut Text, i: u64) -> Result<(), OutOfMemory>
    ensures { OnOk result (text.new ≡ text.old ++ script.machine_ad i) }
{
    text.append(b"[ Arch = \"A")?;
    append_count(text, i % 4)?;
    text.append(b"\"; Memory = ")?;
    append_count(text, 64 * (1 + i % 8))?;
    text.append(b"; Load = Memory / 64; Requirements = TARGET.Owner != \"guest\" && Load < 9 ]")
}

/// Appends the jobs of the first numbers.
fn append_jobs(text: &mut Text, count: u64) -> Result<(), OutOfMemory>
    ensures { OnOk result (text.new ≡ text.old ++ flat_map script.job (range_with_len 0 count)) }
{
    for j in 0..count {
        append_job(text, j)?;
    }
    Ok(())
}

/// Appends the job of a number.
fn append_job(text: &mut Text, j: u64) -> Result<(), OutOfMemory>
    ensures { OnOk result (text.new ≡ text.old ++ script.job j) }
{
    text.append(b"submit j")?;
    append_count(text, j)?;
    text.append(b" ")?;
    text.append(owner(j))?;
    text.append(b"\n")?;
    append_job_ad(text, j)?;
    text.append(b"\n.\n")
}

/// Appends the ad of the job of a number.
#[tactic(auto, unfolding(crate::specs::Workload::job_ad))]
fn append_job_ad(text: &mut Text, j: u64) -> Result<(), OutOfMemory>
    ensures { OnOk result (text.new ≡ text.old ++ script.job_ad j) }
{
    text.append(b"[ Owner = \"")?;
    text.append(owner(j))?;
    text.append(b"\"; Requirements = TARGET.Arch == \"A")?;
    append_count(text, j % 4)?;
    text.append(b"\" && TARGET.Memory >= 128; Rank = TARGET.Memory ]")
}

/// Whose the job of a number is.
#[tactic(auto, unfolding(crate::specs::Workload::owner))]
fn owner(j: u64) -> &'static [u8]
    ensures { result.now ≡ script.owner j }
{
    if j % 2 == 0 { b"alice" } else { b"bob" }
}
