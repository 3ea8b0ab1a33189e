// The run of an input over a machine.
ghost use Rattle.std.specs.Prelude.{◌≡◌, ◌≢◌, ◌↔◌, ◌+◌, ◌-◌, ◌^◌, ◌≤◌, ◌<◌, ◌++◌, ℕ, List, [], true, false, length, IfErr, IfNone, IfOk, IfSome, IsTrue};
ghost use Rattle.std.specs.Prelude.{OnOk};
ghost use Rattle.pool_io.specs.Flow.{Rose};
ghost use Rattle.pool_steps.specs.Spent.{IsPaid, IsSame};
ghost use Rattle.pool_script.specs.Standing.{StandsFor};
ghost use Rattle.script_run.specs.Answering.{Rests, Stopped, Took, TookOne};
ghost use Rattle.script_run.specs.Effects.{beside_of, effects_of};
ghost use Rattle.script_run.specs.Ends.{Ends, IsDoneOrOutOfMemory, LeavesAtMost, end_of};
ghost use Rattle.script_run.specs.Limits.{input_limit};
ghost use Rattle.script_run.specs.Rules.{text_of};

use crate::reading::{INPUT_LIMIT, READ_SIZE, read_piece};
use crate::{Machine, RunEnd};
use notice_desk::Notices;
use pool_io::{Sink, Source, write_all};
use pool_steps::Meter;
use std::sync::ledger::Ledger;

/// Reads an input to its end, lets a new machine answer each item as soon as the item has ended, and offers each answer to the
/// sink as one piece before the next read. An answer without a byte isn't offered. No byte is read after the first one past the
/// limit.
pub fn run<M: Machine, S: Source, K: Sink, D: Notices, F: Ledger, E: Ledger, T: Ledger>(
    machine: &mut M,
    source: &mut S,
    sink: &mut K,
    desk: &mut D,
    meter: &mut Meter<'_, F, E, T>,
) -> RunEnd
    requires stands { StandsFor M.rules.given (M.held machine.old) [] 0 }
    requires waiting { (M.held machine.old).waiting ≡ [] }
    requires over { (M.held machine.old).over ≡ false }
    ensures ends { Ends M.rules (M.state machine.old (D.shows desk.old)) (S.shows source.old) (S.shows source.new)
        (effects_of (K.shows sink.old) meter.old (D.shows desk.old)) (effects_of (K.shows sink.new) meter.new (D.shows desk.new)) result }
    ensures same { IsSame meter.old meter.new }
    ensures ratio { IsPaid meter.old meter.new }
    ensures words { result ≢ RunEnd.BadWords }

    // With an input within the limit and no fault, all is read and answered, or memory is wanting.
    ensures complete { LeavesAtMost input_limit (S.shows source.old).left
        → ¬ Rose (S.shows source.old).faults (S.shows source.new).faults
        → ¬ Rose (K.shows sink.old).faults (K.shows sink.new).faults
        → IsDoneOrOutOfMemory result }
    // The same for every source, by the bytes that it gave, while 64 bits count them: the end by length comes exactly where one byte
    // more was given. No read comes behind the end.
    ensures answered { (S.shows source.old).given + (input_limit + 1) < 2 ^ 64 - 1 → (S.shows source.new).given ≤ (S.shows source.old).given + input_limit
        → ¬ Rose (S.shows source.old).faults (S.shows source.new).faults
        → ¬ Rose (K.shows sink.old).faults (K.shows sink.new).faults
        → IsDoneOrOutOfMemory result }
    ensures too_long { (S.shows source.old).given + (input_limit + 1) < 2 ^ 64 - 1 →
        (result ≡ RunEnd.TooLong) ↔ ((S.shows source.new).given ≡ (S.shows source.old).given + (input_limit + 1)) }
    ensures reads { (S.shows source.old).given + (input_limit + 1) < 2 ^ 64 - 1 →
        (S.shows source.new).reads + (S.shows source.old).given ≤ (S.shows source.old).reads + ((S.shows source.new).given + 1) }
    ensures sure_source { IsTrue (S.shows source.old).sure → result ≢ RunEnd.ReadFault }
    ensures sure_sink { IfSome (S.shows source.old).left (λ bytes.
        length (text_of M.rules (M.state machine.old (D.shows desk.old)) (M.rules.given true bytes)) ≤ (K.shows sink.old).sure
        → result ≢ RunEnd.WriteFault) }
{
    match answer_input(machine, source, sink, desk, meter) {
        Ok(refused) => RunEnd::Done { refused },
        Err(end) => end,
    }
}

// The number of refusals of a run that read and answered all, or why another run ended.
fn answer_input<M: Machine, S: Source, K: Sink, D: Notices, F: Ledger, E: Ledger, T: Ledger>(
    machine: &mut M,
    source: &mut S,
    sink: &mut K,
    desk: &mut D,
    meter: &mut Meter<'_, F, E, T>,
) -> Result<u64, RunEnd>
    requires stands { StandsFor M.rules.given (M.held machine.old) [] 0 }
    requires waiting { (M.held machine.old).waiting ≡ [] }
    requires over { (M.held machine.old).over ≡ false }
    ensures ends { Ends M.rules (M.state machine.old (D.shows desk.old)) (S.shows source.old) (S.shows source.new)
        (effects_of (K.shows sink.old) meter.old (D.shows desk.old)) (effects_of (K.shows sink.new) meter.new (D.shows desk.new)) (end_of result) }
    ensures same { IsSame meter.old meter.new }
    ensures ratio { IsPaid meter.old meter.new }
    ensures words { result ≢ Err RunEnd.BadWords }
{
    let mut buffer = [0; READ_SIZE];
    let mut left = INPUT_LIMIT;
    let mut refused = 0;
    while left > 0 {
        let Ok(count) = read_piece(source, &mut buffer, left) else {
            return Err(RunEnd::ReadFault);
        };
        if count == 0 {
            return answer_end(machine, refused, sink, desk, meter);
        }
        refused = answer_piece(machine, &buffer[..count], refused, sink, desk, meter)?;
        left -= count;
    }
    match read_piece(source, &mut buffer, 1) {
        Ok(0) => answer_end(machine, refused, sink, desk, meter),
        Ok(_) => Err(RunEnd::TooLong),
        Err(_) => Err(RunEnd::ReadFault),
    }
}

// Answers the items that end in a further piece, and tells how many of all were refused.
fn answer_piece<M: Machine, K: Sink, D: Notices, F: Ledger, E: Ledger, T: Ledger>(
    machine: &mut M,
    piece: &[u8],
    refused: u64,
    sink: &mut K,
    desk: &mut D,
    meter: &mut Meter<'_, F, E, T>,
) -> Result<u64, RunEnd>
    requires over { (M.held machine.old).over ≡ false }
    requires waiting { (M.held machine.old).waiting ≡ [] }
    requires room { refused + length (M.rules.given false ((M.held machine.old).rest ++ piece.now)) < 2 ^ 64 }
    ensures took { IfOk result (Took M.rules (M.state machine.old (D.shows desk.old)) (M.state machine.new (D.shows desk.new))
        (effects_of (K.shows sink.old) meter.old (D.shows desk.old)) (effects_of (K.shows sink.new) meter.new (D.shows desk.new))
        (M.rules.given false ((M.held machine.old).rest ++ piece.now)) refused) }
    ensures stopped { IfErr result (Stopped M.rules (M.state machine.old (D.shows desk.old))
        (effects_of (K.shows sink.old) meter.old (D.shows desk.old)) (effects_of (K.shows sink.new) meter.new (D.shows desk.new))
        (M.rules.given false ((M.held machine.old).rest ++ piece.now))) }
    ensures same { IsSame meter.old meter.new }
    ensures ratio { IsPaid meter.old meter.new }
    ensures waiting { OnOk result ((M.held machine.new).waiting ≡ []) }
    ensures over { OnOk result ((M.held machine.new).over ≡ false) }
    ensures stands { OnOk result ((bytes : List ℕ) (n : ℕ) → StandsFor M.rules.given (M.held machine.old) bytes n
        → (m : ℕ) × StandsFor M.rules.given (M.held machine.new) (bytes ++ piece.now) m) }
{
    machine.feed(piece)?;
    answer_waiting(machine, refused, sink, desk, meter)
}

// Answers the items that the end of the input gives, and tells how many of all were refused.
fn answer_end<M: Machine, K: Sink, D: Notices, F: Ledger, E: Ledger, T: Ledger>(
    machine: &mut M,
    refused: u64,
    sink: &mut K,
    desk: &mut D,
    meter: &mut Meter<'_, F, E, T>,
) -> Result<u64, RunEnd>
    requires over { (M.held machine.old).over ≡ false }
    requires waiting { (M.held machine.old).waiting ≡ [] }
    requires room { refused + length (M.rules.given true (M.held machine.old).rest) < 2 ^ 64 }
    ensures took { IfOk result (Took M.rules (M.state machine.old (D.shows desk.old)) (M.state machine.new (D.shows desk.new))
        (effects_of (K.shows sink.old) meter.old (D.shows desk.old)) (effects_of (K.shows sink.new) meter.new (D.shows desk.new))
        (M.rules.given true (M.held machine.old).rest) refused) }
    ensures stopped { IfErr result (Stopped M.rules (M.state machine.old (D.shows desk.old))
        (effects_of (K.shows sink.old) meter.old (D.shows desk.old)) (effects_of (K.shows sink.new) meter.new (D.shows desk.new))
        (M.rules.given true (M.held machine.old).rest)) }
    ensures same { IsSame meter.old meter.new }
    ensures ratio { IsPaid meter.old meter.new }
{
    machine.end()?;
    answer_waiting(machine, refused, sink, desk, meter)
}

// Answers the items that wait, and tells how many of all were refused.
fn answer_waiting<M: Machine, K: Sink, D: Notices, F: Ledger, E: Ledger, T: Ledger>(
    machine: &mut M,
    before: u64,
    sink: &mut K,
    desk: &mut D,
    meter: &mut Meter<'_, F, E, T>,
) -> Result<u64, RunEnd>
    requires { before + length (M.held machine.old).waiting < 2 ^ 64 }
    ensures took { IfOk result (Took M.rules (M.state machine.old (D.shows desk.old)) (M.state machine.new (D.shows desk.new))
        (effects_of (K.shows sink.old) meter.old (D.shows desk.old)) (effects_of (K.shows sink.new) meter.new (D.shows desk.new))
        (M.held machine.old).waiting before) }
    ensures stopped { IfErr result (Stopped M.rules (M.state machine.old (D.shows desk.old))
        (effects_of (K.shows sink.old) meter.old (D.shows desk.old)) (effects_of (K.shows sink.new) meter.new (D.shows desk.new))
        (M.held machine.old).waiting) }
    ensures same { IsSame meter.old meter.new }
    ensures ratio { IsPaid meter.old meter.new }
    ensures waiting { OnOk result ((M.held machine.new).waiting ≡ []) }
    ensures over { (M.held machine.new).over ≡ (M.held machine.old).over }
    ensures stands { (bytes : List ℕ) (n : ℕ) → StandsFor M.rules.given (M.held machine.old) bytes n
        → (m : ℕ) × StandsFor M.rules.given (M.held machine.new) bytes m }
{
    let mut refused = before;
    while let Some(refusals) = answer_one(machine, sink, desk, meter)? {
        refused += refusals;
    }
    Ok(refused)
}

// Answers the next item that waits, offers the answer as one piece, and tells how many refusals it is; none where none waits.
fn answer_one<M: Machine, K: Sink, D: Notices, F: Ledger, E: Ledger, T: Ledger>(
    machine: &mut M,
    sink: &mut K,
    desk: &mut D,
    meter: &mut Meter<'_, F, E, T>,
) -> Result<Option<u64>, RunEnd>
    ensures took { IfOk result (λ count. IfSome count (TookOne M.rules (M.held machine.old).waiting (M.held machine.new).waiting
        (M.state machine.old (D.shows desk.old)) (M.state machine.new (D.shows desk.new))
        (effects_of (K.shows sink.old) meter.old (D.shows desk.old)) (effects_of (K.shows sink.new) meter.new (D.shows desk.new)))) }
    ensures none { IfOk result (λ count. IfNone count (Rests M.rules (M.held machine.old).waiting (M.held machine.new).waiting
        (M.state machine.old (D.shows desk.old)) (M.state machine.new (D.shows desk.new))
        (beside_of meter.old (D.shows desk.old)) (beside_of meter.new (D.shows desk.new)) × (sink.new ≡ sink.old))) }
    ensures stopped { IfErr result (Stopped M.rules (M.state machine.old (D.shows desk.old))
        (effects_of (K.shows sink.old) meter.old (D.shows desk.old)) (effects_of (K.shows sink.new) meter.new (D.shows desk.new))
        (M.held machine.old).waiting) }
    ensures same { IsSame meter.old meter.new }
    ensures ratio { IsPaid meter.old meter.new }
    ensures over { (M.held machine.new).over ≡ (M.held machine.old).over }
    ensures stands { (bytes : List ℕ) (n : ℕ) → StandsFor M.rules.given (M.held machine.old) bytes n
        → (m : ℕ) × StandsFor M.rules.given (M.held machine.new) bytes m }
{
    let Some(answer) = machine.answer(desk, meter)? else {
        return Ok(None);
    };
    let refusals = answer.refusals;
    let written = write_all(sink, answer.text.bytes());
    drop(answer);
    match written {
        Ok(()) => Ok(Some(refusals)),
        Err(_) => Err(RunEnd::WriteFault),
    }
}
