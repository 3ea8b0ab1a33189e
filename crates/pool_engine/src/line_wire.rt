// A wire that answers the lines of a schedule.
ghost use Rattle.std.specs.Prelude.{◌≡◌, length, IfOk};
ghost use Rattle.claim_wire.specs.Lines.{event_of};
ghost use Rattle.claim_wire.specs.Wires.{IsNamed, IsNumber, fault_of, new_wire};
ghost use Rattle.run_rules.specs.WireRules as replies;
ghost use Rattle.run_rules.specs.WireRules.{WireAnswer};

use claim_wire::{Event, LineFault, Wire, WireFault, read_event};
use pool_script::Line;
use pool_text::{OutOfMemory, Text};
use script_run::Answer;
use std::alloc::Global;
use std::marker::Model;

/// A wire with the numbers of its resources and of its customers.
#[derive(Drop)]
pub(crate) struct LineWire {
    alloc: Global,
    wire: Wire,
    resources: u32,
    customers: u32,
}

impl Model for LineWire {
    ghost use Rattle.std.specs.Prelude.{◌≡◌, length};
    ghost use Rattle.claim_wire.specs.Wires.{WireState};

    ghost Value = { WireState };

    ghost view = { λ w. w.wire };

    ghost invariant = { λ w. (length w.wire.resources ≡ w.resources) × (length w.wire.customers ≡ w.customers) };
}

impl LineWire {
    pub(crate) fn new(
        alloc: Global,
        resources: u32,
        customers: u32,
    ) -> Result<LineWire, OutOfMemory>
        requires resources { IsNumber 100 resources }
        requires customers { IsNumber 100 customers }
        ensures { IfOk result (λ wire. wire ≡ new_wire resources customers) }
    {
        Ok(LineWire {
            alloc,
            wire: Wire::new(alloc, resources, customers)?,
            resources,
            customers,
        })
    }

    /// Lets happen what a line says.
    #[tactic(auto, unfolding(run_rules::specs::WireRules::answer, pool_replies::specs::Refusals::line_refusal))]
    pub(crate) fn answer(&mut self, line: &Line) -> Result<Answer, OutOfMemory>
        ensures { IfOk result (λ reply.
            ◌≡◌ {A = WireAnswer} (replies.answer self.old line.now) (record { wire = self.new; text = reply.text; refusals = reply.refusals })) }
    {
        match line {
            Line::TooLong => refused(self.alloc, b"refused 1 line too long\n"),
            Line::Words(words) => self.answer_words(words.bytes()),
        }
    }

    /// Lets happen what the words of a line say.
    fn answer_words(&mut self, words: &[u8]) -> Result<Answer, OutOfMemory>
        ensures { IfOk result (λ reply.
            ◌≡◌ {A = WireAnswer} (replies.answer_read (event_of (length self.old.resources) (length self.old.customers) words.now) self.old)
            (record { wire = self.new; text = reply.text; refusals = reply.refusals })) }
    {
        match read_event(words, self.resources, self.customers) {
            Ok(None) => Ok(Answer {
                text: Text::new(self.alloc),
                refusals: 0,
            }),
            Ok(Some(event)) => self.answer_event(&event),
            Err(fault) => refused(self.alloc, event_refusal(fault)),
        }
    }

    /// Lets an event happen.
    fn answer_event(&mut self, event: &Event) -> Result<Answer, OutOfMemory>
        requires { IsNamed (length self.old.resources) (length self.old.customers) event.now }
        ensures { IfOk result (λ reply.
            ◌≡◌ {A = WireAnswer} (replies.answer_event (fault_of event.now self.old) event.now self.old)
            (record { wire = self.new; text = reply.text; refusals = reply.refusals })) }
    {
        match self.wire.step(event) {
            Ok(text) => Ok(Answer { text, refusals: 0 }),
            Err(WireFault::OutOfMemory) => Err(OutOfMemory),
            Err(fault) => refused(self.alloc, wire_refusal(fault)),
        }
    }
}

/// The reply that refuses a line so.
fn refused(alloc: Global, text: &[u8]) -> Result<Answer, OutOfMemory>
    ensures text { IfOk result (λ reply. reply.text ≡ text.now) }
    ensures count { IfOk result (λ reply. reply.refusals ≡ 1) }
{
    Ok(Answer {
        text: Text::from_bytes(alloc, text)?,
        refusals: 1,
    })
}

#[tactic(auto, unfolding(pool_replies::specs::Refusals::line_refusal))]
fn event_refusal(fault: LineFault) -> &'static [u8]
    ensures { result.now ≡ replies.event_refusal fault }
{
    match fault {
        LineFault::Unknown => b"refused 2 unknown command\n",
        LineFault::Words => b"refused 3 wrong words\n",
    }
}

fn wire_refusal(fault: WireFault) -> &'static [u8]
    ensures { result.now ≡ replies.wire_refusal fault }
{
    match fault {
        WireFault::NotIdle => b"refused 16 customer not idle\n",
        WireFault::NothingToLeave => b"refused 17 nothing to leave\n",
        WireFault::NothingToSend => b"refused 18 nothing to send\n",
        WireFault::NoMessage => b"refused 19 no such message\n",
        WireFault::TooMany => b"refused 20 too many messages\n",
        WireFault::OutOfMemory => b"",
    }
}
