// The text of an explanation.
ghost use Rattle.std.specs.Prelude.{◌≡◌, ◌++◌, codes, length, OnOk};
ghost use Rattle.pool_replies.specs.Reasons as texts;

use crate::writing::{append_amount, append_amount_line, append_line, append_name};
use match_explain::{Conjunct, Report, Verdict};
use pool_text::{Names, OutOfMemory, Text};
use std::convert::AsSlice;

/// Appends the lines of an explanation: one for the job, one for each conjunct, and one for each ad.
pub(crate) fn append_why(
    out: &mut Text,
    job: &[u8],
    names: &Names,
    report: &Report,
) -> Result<(), OutOfMemory>
    requires { length names.now ≡ length report.now.verdicts }
    ensures { OnOk result (out.new ≡ out.old ++ texts.why_text job.now names.now report.now) }
{
    append_name(out, b"why ", job)?;
    append_amount_line(out, b" ads ", names.len() as u64)?;
    append_conjuncts(out, report.conjuncts.as_slice())?;
    append_verdicts(out, names.as_slice(), report.verdicts.as_slice())
}

fn append_conjuncts(out: &mut Text, rows: &[Conjunct]) -> Result<(), OutOfMemory>
    ensures { OnOk result (out.new ≡ out.old ++ texts.conjunct_lines 1 rows.now) }
{
    for (i, row) in rows.iter().enumerate() {
        append_conjunct(out, i as u64 + 1, row)?;
    }
    Ok(())
}

fn append_conjunct(out: &mut Text, number: u64, row: &Conjunct) -> Result<(), OutOfMemory>
    ensures { OnOk result (out.new ≡ out.old ++ texts.conjunct_line number row.now) }
{
    append_amount(out, b"conjunct ", number)?;
    append_amount(out, b" holds ", row.holds)?;
    out.append(b" ")?;
    append_line(out, row.text.bytes())
}

fn append_verdicts(out: &mut Text, names: &[Text], verdicts: &[Verdict]) -> Result<(), OutOfMemory>
    requires { length names.now ≡ length verdicts.now }
    ensures { OnOk result (out.new ≡ out.old ++ texts.verdict_lines names.now verdicts.now) }
{
    for i in 0..names.len() {
        append_name(out, names[i].bytes(), b" ")?;
        append_verdict(out, verdicts[i])?;
    }
    Ok(())
}

fn append_verdict(out: &mut Text, verdict: Verdict) -> Result<(), OutOfMemory>
    ensures { OnOk result (out.new ≡ out.old ++ texts.verdict_text verdict ++ codes "\n") }
{
    match verdict {
        Verdict::Accepted => out.append(b"accepted\n"),
        Verdict::Request(j) => append_amount_line(out, b"request ", u64::from(j)),
        Verdict::Resource(j) => append_amount_line(out, b"resource ", u64::from(j)),
    }
}
