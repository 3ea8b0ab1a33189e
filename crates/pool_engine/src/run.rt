// The run of what the words of a command line ask for.
ghost use Rattle.std.specs.Prelude.{◌≡◌, ◌≢◌, ◌↔◌, ◌+◌, ◌-◌, ◌*◌, ◌^◌, ◌<◌, ◌≤◌, length, IsTrue, IfSome};
ghost use Rattle.claim_wire.specs.Wires.{IsNumber, new_wire};
ghost use Rattle.pool_io.specs.Flow.{Rose};
ghost use Rattle.pool_steps.specs.Spent.{IsPaid, IsSame};
ghost use Rattle.pool_script.specs.Commands.{whole_commands};
ghost use Rattle.pool_script.specs.GivenLines.{whole_lines};
ghost use Rattle.pool_state.specs.Heard.{opened};
ghost use Rattle.script_run.specs.Effects.{effects, effects_of};
ghost use Rattle.script_run.specs.Ends.{Ends, IsDoneOrOutOfMemory, LeavesAtMost};
ghost use Rattle.script_run.specs.Limits.{input_limit};
ghost use Rattle.script_run.specs.Rules.{text_of};
ghost use Rattle.pool_engine.specs.CommandLine.{AskedEnds, IsUnread, asked_by, asked_text, input_of};
ghost use Rattle.run_rules.specs.PoolRules.{pool_rules};
ghost use Rattle.run_rules.specs.WireRules.{wire_rules};

use crate::command_line::{Asked, read_words};
use crate::left::{Left, Rest};
use crate::pool_machine::PoolMachine;
use crate::wire_machine::{WireMachine, WireSize};
use crate::workload_run::run_workload;
use notice_desk::Notices;
use pool_io::{Sink, Source};
use pool_state::Pool;
use pool_steps::{Meter, Steps};
use pool_text::Text;
use script_run::{RunEnd, run};
use std::alloc::Global;
use std::sync::ledger::Ledger;

/// Runs what the words ask for. A pool: the script that a source gives. It reads it to its end, runs each command as soon as
/// it has ended, posts its notices to the desk, whose names listen, and offers each reply to the sink as one piece before the
/// next read. What the boxes do changes neither replies nor the end. No byte is read after the first one past the limit. It
/// counts in `tops` the whole evaluations of the commands, and in `entry` and `touch` the attributes that they enter and the
/// ads of the store that are looked into. A workload: the script that `generated` writes, as a pool runs it, but it offers no
/// reply, and at the end the summary of all as one piece; the source is left alone. A wire: the schedule that the source gives,
/// as the lines of a script run; nothing is counted or posted. Where the words are wrong nothing is read, written or posted.
///
/// Over a run `entry` rises by at most 9,216 times the rise of `tops`, since a world has at most nine ads of 1,024 attributes
/// each.
pub fn run_pool<'a, S: Source, K: Sink, D: Notices, F: Ledger, E: Ledger, T: Ledger>(
    alloc: Global,
    words: &[Text],
    source: &mut S,
    sink: &mut K,
    desk: &mut D,
    tops: &'a mut Steps<F>,
    entry: &'a mut Steps<E>,
    touch: &'a mut Steps<T>,
) -> RunEnd
    ensures ends { AskedEnds (asked_by words.now) (S.shows source.old) (S.shows source.new)
        (effects (K.shows sink.old) tops.old touch.old (D.shows desk.old)) (effects (K.shows sink.new) tops.new touch.new (D.shows desk.new)) result }
    ensures ratio { entry.new + 9216 * tops.old ≤ entry.old + 9216 * tops.new }

    // Where the words are wrong nothing was read or written, and a workload reads nothing.
    ensures words { (result ≡ RunEnd.BadWords) ↔ (asked_by words.now ≡ Asked.Bad) }
    ensures unread { IsUnread (asked_by words.now) → source.new ≡ source.old }
    ensures unwritten { result ≡ RunEnd.BadWords → sink.new ≡ sink.old }
    ensures unposted { result ≡ RunEnd.BadWords → desk.new ≡ desk.old }

    // With good words, an input within the limit and no fault, all is read and answered, or memory is wanting.
    ensures complete { asked_by words.now ≢ Asked.Bad → LeavesAtMost input_limit (input_of (asked_by words.now) (S.shows source.old).left)
        → ¬ Rose (S.shows source.old).faults (S.shows source.new).faults
        → ¬ Rose (K.shows sink.old).faults (K.shows sink.new).faults
        → IsDoneOrOutOfMemory result }

    // The same for every source, by the bytes that it gave, while 64 bits count them: the end by length comes exactly where one byte
    // more was given than an input may have. No read comes behind the end.
    ensures answered { asked_by words.now ≢ Asked.Bad → (S.shows source.old).given + (input_limit + 1) < 2 ^ 64 - 1
        → (S.shows source.new).given ≤ (S.shows source.old).given + input_limit
        → ¬ Rose (S.shows source.old).faults (S.shows source.new).faults
        → ¬ Rose (K.shows sink.old).faults (K.shows sink.new).faults
        → IsDoneOrOutOfMemory result }
    ensures too_long { (S.shows source.old).given + (input_limit + 1) < 2 ^ 64 - 1 →
        (result ≡ RunEnd.TooLong) ↔ ((S.shows source.new).given ≡ (S.shows source.old).given + (input_limit + 1)) }
    ensures reads { (S.shows source.old).given + (input_limit + 1) < 2 ^ 64 - 1 →
        (S.shows source.new).reads + (S.shows source.old).given ≤ (S.shows source.old).reads + ((S.shows source.new).given + 1) }

    ensures sure_source { IsTrue (S.shows source.old).sure → result ≢ RunEnd.ReadFault }
    ensures sure_sink { IfSome (input_of (asked_by words.now) (S.shows source.old).left) (λ bytes.
        length (asked_text (asked_by words.now) (D.shows desk.old) bytes) ≤ (K.shows sink.old).sure
        → result ≢ RunEnd.WriteFault) }
{
    let mut meter = Meter::new(tops, entry, touch);
    let host = Host { alloc, seed: 0 };
    let (end, left) = run_and_keep(host, words, source, sink, desk, &mut meter);
    drop(left);
    end
}

/// What a run has of the machine that it runs on: its memory, and a seed for the hashes of the names in ads. Replies don't depend
/// on the seed. Where it is drawn at random, nobody can choose names that meet in a table.
#[derive(Clone, Copy)]
pub struct Host {
    pub alloc: Global,
    pub seed: u64,
}

/// Runs what the words ask for as `run_pool` does, and hands what is left of the run to its caller.
pub fn run_and_keep<S: Source, K: Sink, D: Notices, F: Ledger, E: Ledger, T: Ledger>(
    host: Host,
    words: &[Text],
    source: &mut S,
    sink: &mut K,
    desk: &mut D,
    meter: &mut Meter<'_, F, E, T>,
) -> (RunEnd, Left)
    ensures ends { AskedEnds (asked_by words.now) (S.shows source.old) (S.shows source.new)
        (effects_of (K.shows sink.old) meter.old (D.shows desk.old)) (effects_of (K.shows sink.new) meter.new (D.shows desk.new)) result.0 }
    ensures same { IsSame meter.old meter.new }
    ensures ratio { IsPaid meter.old meter.new }

    // Where the words are wrong nothing was read or written, and a workload reads nothing.
    ensures words { (result.0 ≡ RunEnd.BadWords) ↔ (asked_by words.now ≡ Asked.Bad) }
    ensures unread { IsUnread (asked_by words.now) → source.new ≡ source.old }
    ensures unwritten { result.0 ≡ RunEnd.BadWords → sink.new ≡ sink.old }
    ensures unposted { result.0 ≡ RunEnd.BadWords → desk.new ≡ desk.old }

    // With good words, an input within the limit and no fault, all is read and answered, or memory is wanting.
    ensures complete { asked_by words.now ≢ Asked.Bad → LeavesAtMost input_limit (input_of (asked_by words.now) (S.shows source.old).left)
        → ¬ Rose (S.shows source.old).faults (S.shows source.new).faults
        → ¬ Rose (K.shows sink.old).faults (K.shows sink.new).faults
        → IsDoneOrOutOfMemory result.0 }

    // The same for every source, by the bytes that it gave, while 64 bits count them: the end by length comes exactly where one byte
    // more was given than an input may have. No read comes behind the end.
    ensures answered { asked_by words.now ≢ Asked.Bad → (S.shows source.old).given + (input_limit + 1) < 2 ^ 64 - 1
        → (S.shows source.new).given ≤ (S.shows source.old).given + input_limit
        → ¬ Rose (S.shows source.old).faults (S.shows source.new).faults
        → ¬ Rose (K.shows sink.old).faults (K.shows sink.new).faults
        → IsDoneOrOutOfMemory result.0 }
    ensures too_long { (S.shows source.old).given + (input_limit + 1) < 2 ^ 64 - 1 →
        (result.0 ≡ RunEnd.TooLong) ↔ ((S.shows source.new).given ≡ (S.shows source.old).given + (input_limit + 1)) }
    ensures reads { (S.shows source.old).given + (input_limit + 1) < 2 ^ 64 - 1 →
        (S.shows source.new).reads + (S.shows source.old).given ≤ (S.shows source.old).reads + ((S.shows source.new).given + 1) }

    ensures sure_source { IsTrue (S.shows source.old).sure → result.0 ≢ RunEnd.ReadFault }
    ensures sure_sink { IfSome (input_of (asked_by words.now) (S.shows source.old).left) (λ bytes.
        length (asked_text (asked_by words.now) (D.shows desk.old) bytes) ≤ (K.shows sink.old).sure
        → result.0 ≢ RunEnd.WriteFault) }
{
    match read_words(words) {
        Asked::Bad => (
            RunEnd::BadWords,
            Left {
                rest: Rest::Nothing,
            },
        ),
        Asked::Pool => run_script(host, source, sink, desk, meter),
        Asked::Workload { machines } => {
            let mut pool = Pool::with_seed(host.alloc, host.seed);
            let end = run_workload(host.alloc, machines, &mut pool, sink, desk, meter);
            (
                end,
                Left {
                    rest: Rest::Workload(pool),
                },
            )
        }
        Asked::Wire {
            resources,
            customers,
        } => {
            let size = WireSize {
                resources,
                customers,
            };
            let end = run_wire(host.alloc, size, source, sink, desk, meter);
            (
                end,
                Left {
                    rest: Rest::Nothing,
                },
            )
        }
    }
}

// Runs the script that a source gives.
fn run_script<S: Source, K: Sink, D: Notices, F: Ledger, E: Ledger, T: Ledger>(
    host: Host,
    source: &mut S,
    sink: &mut K,
    desk: &mut D,
    meter: &mut Meter<'_, F, E, T>,
) -> (RunEnd, Left)
    ensures ends { Ends pool_rules (opened (D.shows desk.old)) (S.shows source.old) (S.shows source.new)
        (effects_of (K.shows sink.old) meter.old (D.shows desk.old)) (effects_of (K.shows sink.new) meter.new (D.shows desk.new)) result.0 }
    ensures same { IsSame meter.old meter.new }
    ensures ratio { IsPaid meter.old meter.new }
    ensures words { result.0 ≢ RunEnd.BadWords }
    ensures complete { LeavesAtMost input_limit (S.shows source.old).left
        → ¬ Rose (S.shows source.old).faults (S.shows source.new).faults
        → ¬ Rose (K.shows sink.old).faults (K.shows sink.new).faults
        → IsDoneOrOutOfMemory result.0 }
    ensures answered { (S.shows source.old).given + (input_limit + 1) < 2 ^ 64 - 1 → (S.shows source.new).given ≤ (S.shows source.old).given + input_limit
        → ¬ Rose (S.shows source.old).faults (S.shows source.new).faults
        → ¬ Rose (K.shows sink.old).faults (K.shows sink.new).faults
        → IsDoneOrOutOfMemory result.0 }
    ensures too_long { (S.shows source.old).given + (input_limit + 1) < 2 ^ 64 - 1 →
        (result.0 ≡ RunEnd.TooLong) ↔ ((S.shows source.new).given ≡ (S.shows source.old).given + (input_limit + 1)) }
    ensures reads { (S.shows source.old).given + (input_limit + 1) < 2 ^ 64 - 1 →
        (S.shows source.new).reads + (S.shows source.old).given ≤ (S.shows source.old).reads + ((S.shows source.new).given + 1) }
    ensures sure_source { IsTrue (S.shows source.old).sure → result.0 ≢ RunEnd.ReadFault }
    ensures sure_sink { IfSome (S.shows source.old).left (λ bytes.
        length (text_of pool_rules (opened (D.shows desk.old)) (whole_commands bytes)) ≤ (K.shows sink.old).sure
        → result.0 ≢ RunEnd.WriteFault) }
{
    let mut machine = PoolMachine::new(host);
    let end = run(&mut machine, source, sink, desk, meter);
    (
        end,
        Left {
            rest: Rest::Script(machine),
        },
    )
}

// Runs the schedule that a source gives on a wire of so many resources and customers.
fn run_wire<S: Source, K: Sink, D: Notices, F: Ledger, E: Ledger, T: Ledger>(
    alloc: Global,
    size: WireSize,
    source: &mut S,
    sink: &mut K,
    desk: &mut D,
    meter: &mut Meter<'_, F, E, T>,
) -> RunEnd
    requires resources { IsNumber 100 size.resources }
    requires customers { IsNumber 100 size.customers }
    ensures ends { Ends wire_rules (new_wire size.resources size.customers) (S.shows source.old) (S.shows source.new)
        (effects_of (K.shows sink.old) meter.old (D.shows desk.old)) (effects_of (K.shows sink.new) meter.new (D.shows desk.new)) result }
    ensures quiet { (effects_of (K.shows sink.new) meter.new (D.shows desk.new)).others
        ≡ (effects_of (K.shows sink.old) meter.old (D.shows desk.old)).others }
    ensures same { IsSame meter.old meter.new }
    ensures ratio { IsPaid meter.old meter.new }
    ensures words { result ≢ RunEnd.BadWords }
    ensures complete { LeavesAtMost input_limit (S.shows source.old).left
        → ¬ Rose (S.shows source.old).faults (S.shows source.new).faults
        → ¬ Rose (K.shows sink.old).faults (K.shows sink.new).faults
        → IsDoneOrOutOfMemory result }
    ensures answered { (S.shows source.old).given + (input_limit + 1) < 2 ^ 64 - 1 → (S.shows source.new).given ≤ (S.shows source.old).given + input_limit
        → ¬ Rose (S.shows source.old).faults (S.shows source.new).faults
        → ¬ Rose (K.shows sink.old).faults (K.shows sink.new).faults
        → IsDoneOrOutOfMemory result }
    ensures too_long { (S.shows source.old).given + (input_limit + 1) < 2 ^ 64 - 1 →
        (result ≡ RunEnd.TooLong) ↔ ((S.shows source.new).given ≡ (S.shows source.old).given + (input_limit + 1)) }
    ensures reads { (S.shows source.old).given + (input_limit + 1) < 2 ^ 64 - 1 →
        (S.shows source.new).reads + (S.shows source.old).given ≤ (S.shows source.old).reads + ((S.shows source.new).given + 1) }
    ensures sure_source { IsTrue (S.shows source.old).sure → result ≢ RunEnd.ReadFault }
    ensures sure_sink { IfSome (S.shows source.old).left (λ bytes.
        length (text_of wire_rules (new_wire size.resources size.customers) (whole_lines bytes)) ≤ (K.shows sink.old).sure
        → result ≢ RunEnd.WriteFault) }
{
    let Ok(machine) = WireMachine::new(alloc, size) else {
        return RunEnd::OutOfMemory;
    };
    let mut machine = machine;
    let end = run(&mut machine, source, sink, desk, meter);
    drop(machine);
    end
}
