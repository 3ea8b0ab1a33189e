// The run of a workload: its commands run as those of a script do, and a summary is offered in the place of replies.
ghost use Rattle.std.specs.Prelude.{◌≡◌, ◌≢◌, ◌≤◌, ◌∷◌, [], false, length, IfOk, IsTrue, OnErr, OnOk};
ghost use Rattle.workload.specs.Summary.{summary_text};
ghost use Rattle.pool_io.specs.Flow.{Rose, WritesAll};
ghost use Rattle.pool_steps.specs.Spent.{IsPaid, IsSame};
ghost use Rattle.pool_script.specs.Commands.{whole_commands};
ghost use Rattle.pool_script.specs.Form.{is_within_form};
ghost use Rattle.pool_script.specs.Standing.{Stands};
ghost use Rattle.pool_replies.specs.Replies.{hit_count, is_printable, offer_count, refusal_count, reply_text};
ghost use Rattle.script_run.specs.Answering.{Stopped, Took};
ghost use Rattle.script_run.specs.Effects.{beside_of, effects_of};
ghost use Rattle.script_run.specs.Ends.{IsDoneOrOutOfMemory};
ghost use Rattle.run_rules.specs.Events.{event_of, events_of};
ghost use Rattle.run_rules.specs.PoolRules.{WasTried, pool_rules};
ghost use Rattle.pool_state.specs.Heard.{Heard, heard, opened};
ghost use Rattle.pool_state.specs.Pool.{state_of};
ghost use Rattle.pool_books.specs.State.{opening};
ghost use Rattle.pool_engine.specs.Workloads.{IsSummaryOf, WorkloadEnds, silent, summary_of, workload_commands, workload_events};

use crate::pool_machine::run_command;
use notice_desk::Notices;
use pool_io::{Failed, Sink, write_all};
use pool_replies::{Reply, hits, offers, print_reply, refusals};
use pool_script::{Command, Script};
use pool_state::Pool;
use pool_steps::Meter;
use pool_text::OutOfMemory;
use script_run::RunEnd;
use std::alloc::Global;
use std::sync::ledger::Ledger;
use workload::{Summary, generated};

/// Runs the script of a workload of so many machines, and offers the summary as one piece.
#[tactic(auto, unfolding(crate::specs::Workloads::summary_of))]
pub(crate) fn run_workload<K: Sink, D: Notices, F: Ledger, E: Ledger, T: Ledger>(
    alloc: Global,
    machines: u64,
    pool: &mut Pool,
    sink: &mut K,
    desk: &mut D,
    meter: &mut Meter<'_, F, E, T>,
) -> RunEnd
    requires { state_of pool.old ≡ opening }
    ensures ends { WorkloadEnds machines (effects_of (K.shows sink.old) meter.old (D.shows desk.old))
        (effects_of (K.shows sink.new) meter.new (D.shows desk.new)) result }
    ensures same { IsSame meter.old meter.new }
    ensures ratio { IsPaid meter.old meter.new }
    ensures words { result ≢ RunEnd.BadWords }
    ensures complete { ¬ Rose (K.shows sink.old).faults (K.shows sink.new).faults → IsDoneOrOutOfMemory result }
    ensures sure_source { result ≢ RunEnd.ReadFault }
    ensures sure_sink { length (summary_of (workload_events machines (D.shows desk.old))) ≤ (K.shows sink.old).sure
        → result ≢ RunEnd.WriteFault }
{
    let Ok(summary) = summed(alloc, machines, pool, desk, meter) else {
        return RunEnd::OutOfMemory;
    };
    let Ok(offered) = offer_summary(alloc, &summary, sink) else {
        return RunEnd::OutOfMemory;
    };
    let Ok(()) = offered else {
        return RunEnd::WriteFault;
    };
    RunEnd::Done {
        refused: summary.refused,
    }
}

// Offers the text of a summary as one piece. Answers whether the sink took it.
fn offer_summary<K: Sink>(
    alloc: Global,
    summary: &Summary,
    sink: &mut K,
) -> Result<Result<(), Failed>, OutOfMemory>
    ensures offered { IfOk result (λ offered. WritesAll (K.shows sink.old) (K.shows sink.new) offered
        (summary_text summary.now.commands summary.now.refused summary.now.hits summary.now.offers summary.now.bytes)) }
    ensures unwritten { OnErr result (sink.new ≡ sink.old) }
{
    let text = summary.print(alloc)?;
    let offered = write_all(sink, text.bytes());
    drop(text);
    Ok(offered)
}

// Runs the commands of a workload, and sums up their replies.
fn summed<D: Notices, F: Ledger, E: Ledger, T: Ledger>(
    alloc: Global,
    machines: u64,
    pool: &mut Pool,
    desk: &mut D,
    meter: &mut Meter<'_, F, E, T>,
) -> Result<Summary, OutOfMemory>
    requires { state_of pool.old ≡ opening }
    ensures summed { IfOk result (λ summary. IsSummaryOf summary (workload_events machines (D.shows desk.old))) }
    ensures took { IfOk result (λ summary. (t : Heard) × Took pool_rules (opened (D.shows desk.old)) t
        (effects_of silent meter.old (D.shows desk.old)) (effects_of silent meter.new (D.shows desk.new))
        (workload_commands machines) 0 summary.refused) }
    ensures stopped { OnErr result (Stopped pool_rules (opened (D.shows desk.old))
        (effects_of silent meter.old (D.shows desk.old)) (effects_of silent meter.new (D.shows desk.new))
        (workload_commands machines) RunEnd.OutOfMemory) }
    ensures same { IsSame meter.old meter.new }
    ensures ratio { IsPaid meter.old meter.new }
{
    let mut script = script_of(alloc, machines)?;
    let summary = sum_waiting(alloc, &mut script, pool, desk, meter);
    drop(script);
    summary
}

// Runs the commands that wait in a pool, and sums up their replies.
fn sum_waiting<D: Notices, F: Ledger, E: Ledger, T: Ledger>(
    alloc: Global,
    script: &mut Script,
    pool: &mut Pool,
    desk: &mut D,
    meter: &mut Meter<'_, F, E, T>,
) -> Result<Summary, OutOfMemory>
    ensures summed { IfOk result (λ summary.
        IsSummaryOf summary (events_of (heard (state_of pool.old) (D.shows desk.old)) script.old.waiting)) }
    ensures took { IfOk result (λ summary. (t : Heard) × Took pool_rules (heard (state_of pool.old) (D.shows desk.old)) t
        (effects_of silent meter.old (D.shows desk.old)) (effects_of silent meter.new (D.shows desk.new))
        script.old.waiting 0 summary.refused) }
    ensures stopped { OnErr result (Stopped pool_rules (heard (state_of pool.old) (D.shows desk.old))
        (effects_of silent meter.old (D.shows desk.old)) (effects_of silent meter.new (D.shows desk.new))
        script.old.waiting RunEnd.OutOfMemory) }
    ensures same { IsSame meter.old meter.new }
    ensures ratio { IsPaid meter.old meter.new }
{
    let mut summary = Summary::new();
    while let Some(command) = script.take() {
        let one = answered(alloc, pool, command, desk, meter)?;
        summary.add(&one)?;
    }
    Ok(summary)
}

// The script of a workload, whose commands wait.
fn script_of(alloc: Global, machines: u64) -> Result<Script, OutOfMemory>
    ensures { IfOk result (λ script. script.waiting ≡ workload_commands machines) }
{
    let mut script = Script::new(alloc);
    match read_workload(alloc, machines, &mut script) {
        Ok(()) => Ok(script),
        Err(e) => {
            drop(script);
            Err(e)
        }
    }
}

// Reads the text of a workload into a new script.
#[tactic(auto, unfolding(crate::specs::Workloads::workload_commands))]
fn read_workload(alloc: Global, machines: u64, script: &mut Script) -> Result<(), OutOfMemory>
    requires stands { Stands script.old [] 0 }
    requires over { script.old.over ≡ false }
    ensures { OnOk result (script.new.waiting ≡ workload_commands machines) }
{
    let text = generated(alloc, machines)?;
    let read = read_whole(text.bytes(), script);
    drop(text);
    read
}

// Reads a whole text into a new script.
fn read_whole(text: &[u8], script: &mut Script) -> Result<(), OutOfMemory>
    requires stands { Stands script.old [] 0 }
    requires over { script.old.over ≡ false }
    ensures { OnOk result (script.new.waiting ≡ whole_commands text.now) }
{
    script.feed(text)?;
    script.end()
}

// Runs a command, and sums up its reply.
fn answered<D: Notices, F: Ledger, E: Ledger, T: Ledger>(
    alloc: Global,
    pool: &mut Pool,
    command: Command,
    desk: &mut D,
    meter: &mut Meter<'_, F, E, T>,
) -> Result<Summary, OutOfMemory>
    requires { IsTrue (is_within_form command) }
    ensures summed { IfOk result (λ summary.
        IsSummaryOf summary (event_of (heard (state_of pool.old) (D.shows desk.old)) command ∷ [])) }
    ensures took { IfOk result (λ summary. Took pool_rules (heard (state_of pool.old) (D.shows desk.old)) (heard (state_of pool.new) (D.shows desk.new))
        (effects_of silent meter.old (D.shows desk.old)) (effects_of silent meter.new (D.shows desk.new)) (command ∷ []) 0 summary.refused) }
    ensures tried { OnErr result (WasTried (heard (state_of pool.old) (D.shows desk.old)) command
        (beside_of meter.old (D.shows desk.old)) (beside_of meter.new (D.shows desk.new))) }
    ensures same { IsSame meter.old meter.new }
    ensures ratio { IsPaid meter.old meter.new }
{
    let ran = run_command(pool, command, desk, meter);
    let reply = ran?;
    let summary = summary_of_reply(alloc, &reply);
    drop(reply);
    summary
}

// The summary of one reply.
fn summary_of_reply(alloc: Global, reply: &Reply) -> Result<Summary, OutOfMemory>
    requires { IsTrue (is_printable reply.now) }
    ensures commands { IfOk result (λ summary. summary.commands ≡ 1) }
    ensures refused { IfOk result (λ summary. summary.refused ≡ refusal_count reply.now) }
    ensures hits { IfOk result (λ summary. summary.hits ≡ hit_count reply.now) }
    ensures offers { IfOk result (λ summary. summary.offers ≡ offer_count reply.now) }
    ensures bytes { IfOk result (λ summary. summary.bytes ≡ length (reply_text reply.now)) }
{
    let text = print_reply(alloc, reply)?;
    // More offers than 64 bits count have no room in memory.
    let offers = offers(reply).ok_or(OutOfMemory)?;
    Ok(Summary {
        commands: 1,
        refused: refusals(reply),
        hits: hits(reply),
        offers,
        bytes: text.bytes().len() as u64,
    })
}
