// A pool that runs the commands of a script as they end.
ghost use Rattle.std.specs.Prelude.{◌≡◌, ◌∷◌, [], false, IfOk, IsTrue, OnErr, OnOk};
ghost use Rattle.pool_steps.specs.Spent.{IsPaid, IsSame};
ghost use Rattle.pool_script.specs.Form.{is_within_form};
ghost use Rattle.pool_script.specs.Standing.{Stands};
ghost use Rattle.pool_replies.specs.Replies.{is_printable, refusal_count, reply_text};
ghost use Rattle.pool_state.specs.Heard.{heard, step_heard};
ghost use Rattle.pool_state.specs.Pool.{state_of};
ghost use Rattle.pool_books.specs.State.{opening};
ghost use Rattle.script_run.specs.Effects.{beside_of};
ghost use Rattle.run_rules.specs.PoolRules.{Ran, WasTried};

use crate::run::Host;
use notice_desk::Notices;
use pool_replies::{Reply, print_reply, refusals};
use pool_script::{Command, Script};
use pool_state::Pool;
use pool_steps::Meter;
use pool_text::OutOfMemory;
use script_run::{Answer, Machine};
use std::alloc::Global;
use std::sync::ledger::Ledger;

/// The script so far, and the pool behind its commands.
#[derive(Drop)]
pub(crate) struct PoolMachine {
    alloc: Global,
    script: Script,
    pool: Pool,
}

impl PoolMachine {
    pub(crate) fn new(host: Host) -> PoolMachine
        ensures stands { Stands result.script [] 0 }
        ensures waiting { result.script.waiting ≡ [] }
        ensures over { result.script.over ≡ false }
        ensures pool { state_of result.pool ≡ opening }
    {
        PoolMachine {
            alloc: host.alloc,
            script: Script::new(host.alloc),
            pool: Pool::with_seed(host.alloc, host.seed),
        }
    }
}

impl Machine for PoolMachine {
    ghost use Rattle.pool_script.specs.declared.command.Command.{Command};
    ghost use Rattle.pool_state.specs.Heard.{Heard};
    ghost use Rattle.run_rules.specs.PoolRules.{pool_rules};
    ghost use Rattle.run_rules.proofs.PoolLemmas.{pool_lawful};

    ghost State = { Heard };

    ghost Item = { Command };

    ghost held = { λ m. m.script };

    ghost state = { λ m rows. heard (state_of m.pool) rows };

    ghost rules = { pool_rules };

    ghost lawful = { pool_lawful };

    fn feed(&mut self, piece: &[u8]) -> Result<(), OutOfMemory> {
        self.script.feed(piece)
    }

    fn end(&mut self) -> Result<(), OutOfMemory> {
        self.script.end()
    }

    fn answer<D: Notices, F: Ledger, E: Ledger, T: Ledger>(
        &mut self,
        desk: &mut D,
        meter: &mut Meter<'_, F, E, T>,
    ) -> Result<Option<Answer>, OutOfMemory> {
        let Some(command) = self.script.take() else {
            return Ok(None);
        };
        let answered = answer_command(self.alloc, &mut self.pool, command, desk, meter)?;
        Ok(Some(answered))
    }
}

// Runs a command, and makes the text of its reply.
fn answer_command<D: Notices, F: Ledger, E: Ledger, T: Ledger>(
    alloc: Global,
    pool: &mut Pool,
    command: Command,
    desk: &mut D,
    meter: &mut Meter<'_, F, E, T>,
) -> Result<Answer, OutOfMemory>
    requires { IsTrue (is_within_form command) }
    ensures state { OnOk result (heard (state_of pool.new) (D.shows desk.new) ≡ (step_heard (heard (state_of pool.old) (D.shows desk.old)) command).0) }
    ensures text { IfOk result (λ answer. answer.text ≡ reply_text (step_heard (heard (state_of pool.old) (D.shows desk.old)) command).1) }
    ensures refusals { IfOk result (λ answer. answer.refusals ≡ refusal_count (step_heard (heard (state_of pool.old) (D.shows desk.old)) command).1) }
    ensures ran { OnOk result (Ran (heard (state_of pool.old) (D.shows desk.old)) (command ∷ [])
        (beside_of meter.old (D.shows desk.old)) (beside_of meter.new (D.shows desk.new))) }
    ensures tried { OnErr result (WasTried (heard (state_of pool.old) (D.shows desk.old)) command
        (beside_of meter.old (D.shows desk.old)) (beside_of meter.new (D.shows desk.new))) }
    ensures same { IsSame meter.old meter.new }
    ensures ratio { IsPaid meter.old meter.new }
{
    let ran = run_command(pool, command, desk, meter);
    let reply = ran?;
    let printed = print(alloc, &reply);
    drop(reply);
    printed
}

// The text of a reply, and how many refusals it is.
fn print(alloc: Global, reply: &Reply) -> Result<Answer, OutOfMemory>
    requires { IsTrue (is_printable reply.now) }
    ensures text { IfOk result (λ answer. answer.text ≡ reply_text reply.now) }
    ensures refusals { IfOk result (λ answer. answer.refusals ≡ refusal_count reply.now) }
{
    Ok(Answer {
        text: print_reply(alloc, reply)?,
        refusals: refusals(reply),
    })
}

/// Runs a command.
pub(crate) fn run_command<D: Notices, F: Ledger, E: Ledger, T: Ledger>(
    pool: &mut Pool,
    command: Command,
    desk: &mut D,
    meter: &mut Meter<'_, F, E, T>,
) -> Result<Reply, OutOfMemory>
    requires { IsTrue (is_within_form command) }
    ensures step { IfOk result (λ reply. step_heard (heard (state_of pool.old) (D.shows desk.old)) command
        ≡ (heard (state_of pool.new) (D.shows desk.new), reply)) }
    ensures printable { IfOk result (λ reply. IsTrue (is_printable reply)) }
    ensures ran { OnOk result (Ran (heard (state_of pool.old) (D.shows desk.old)) (command ∷ [])
        (beside_of meter.old (D.shows desk.old)) (beside_of meter.new (D.shows desk.new))) }
    ensures tried { WasTried (heard (state_of pool.old) (D.shows desk.old)) command
        (beside_of meter.old (D.shows desk.old)) (beside_of meter.new (D.shows desk.new)) }
    ensures same { IsSame meter.old meter.new }
    ensures ratio { IsPaid meter.old meter.new }
{
    let ran = pool.step(&command, desk, meter.tops, meter.entry, meter.touch);
    drop(command);
    ran
}
