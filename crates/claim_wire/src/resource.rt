// The resource's end of a claim.
ghost use Rattle.std.specs.Prelude.{◌≡◌, ◌<◌, ◌≤◌, ◌+◌, ◌++◌, ◌∷◌, ◌&&◌, [], true, false, length, max, slice_set, Option, Some, None, option_map, position};
ghost use Rattle.std.specs.Prelude.{nat_le, ◌==◌, IfOk};
ghost use Rattle.claim_wire.specs.Resources as spec;

use crate::message::{Answers, Holder, Message, MessageKind};
use pool_text::OutOfMemory;
use std::alloc::Global;
use std::marker::Model;

/// A resource. Its holder and the numbers that customers freed are stored and outlive a restart; who waits isn't.
#[derive(Drop)]
pub struct Resource {
    id: u32,
    holder: Option<Holder>,
    freed: Vec<u64>,
    waiting: Vec<Holder>,
}

impl Model for Resource {
    ghost use Rattle.std.specs.Prelude.{◌≡◌, ◌<◌, length, true};
    ghost use Rattle.std.specs.Vec.{vec_capacity};
    ghost use Rattle.claim_wire.specs.Resources.{ResourceState, are_waiting};

    ghost Value = { ResourceState };

    ghost view = { λ r. record { id = r.id; holder = r.holder; freed = r.freed.items; waiting = r.waiting.items } };

    // There is room for each customer to wait once.
    ghost invariant = { λ r. (are_waiting (length r.freed.items) r.waiting.items ≡ true) × (length r.freed.items < vec_capacity r.waiting) };
}

impl Resource {
    /// A resource that nobody held, with room for so many customers.
    pub fn new(alloc: Global, id: u32, customers: u32) -> Result<Resource, OutOfMemory>
        ensures new { IfOk result (λ r. r ≡ spec.new_resource customers id) }
        ensures customers { IfOk result (λ r. length r.freed ≡ customers) }
    {
        let freed = vec![in alloc; 0; customers as usize]?;
        let waiting = Vec::with_capacity(alloc, customers as usize + 1)?;
        Ok(Resource {
            id,
            holder: None,
            freed,
            waiting,
        })
    }

    pub(crate) fn id(&self) -> u32
        ensures { result ≡ self.now.id }
    {
        self.id
    }

    /// Who holds the resource, and with which number.
    pub fn holder(&self) -> Option<Holder>
        ensures { result ≡ self.now.holder }
    {
        self.holder
    }

    /// Takes the message of one of its customers and answers it. Only asks and leaves are answered.
    pub fn take(&mut self, m: &Message) -> Answers
        requires customer { (0 < m.now.customer) × (m.now.customer ≤ length self.old.freed) }
        ensures sent { result ≡ (spec.take m.now self.old).1 }
        ensures new { self.new ≡ (spec.take m.now self.old).0 }
        ensures customers { length self.new.freed ≡ length self.old.freed }
    {
        let answers = self.answers(m);
        self.change(m);
        answers
    }

    /// What the resource answers to a message, before it changes.
    pub(crate) fn answers(&self, m: &Message) -> Answers
        requires customer { (0 < m.now.customer) × (m.now.customer ≤ length self.now.freed) }
        ensures { result ≡ (spec.take m.now self.now).1 }
    {
        match m.kind {
            MessageKind::Ask => self.ask_answers(m),
            MessageKind::Leave => self.leave_answers(m),
            MessageKind::Grant => SILENT,
            MessageKind::Gone => SILENT,
        }
    }

    /// Changes as a message tells.
    pub(crate) fn change(&mut self, m: &Message)
        requires customer { (0 < m.now.customer) × (m.now.customer ≤ length self.old.freed) }
        ensures { self.new ≡ (spec.take m.now self.old).0 }
    {
        match m.kind {
            MessageKind::Ask => self.ask(m),
            MessageKind::Leave => self.leave(m),
            MessageKind::Grant => {}
            MessageKind::Gone => {}
        }
    }

    /// Starts again from what is stored.
    pub fn restart(&mut self)
        ensures { self.new ≡ spec.restart self.old }
    {
        self.waiting.clear();
    }

    /// Whether the claim of a message is freed.
    fn is_past(&self, m: &Message) -> bool
        requires customer { (0 < m.now.customer) × (m.now.customer ≤ length self.now.freed) }
        ensures { result ≡ nat_le m.now.number (spec.freed_of self.now m.now.customer) }
    {
        m.number <= self.freed[m.customer as usize - 1]
    }

    fn ask_answers(&self, m: &Message) -> Answers
        requires customer { (0 < m.now.customer) × (m.now.customer ≤ length self.now.freed) }
        ensures { result ≡ (spec.ask m.now self.now).1 }
    {
        let claim = claim_of(m);
        if self.is_past(m) {
            return one(answer(MessageKind::Gone, m));
        }
        match self.holder {
            None => one(grant(self.id, claim)),
            Some(holder) => {
                if holder.customer == claim.customer && holder.number == claim.number {
                    return one(grant(self.id, claim));
                }
                SILENT
            }
        }
    }

    fn ask(&mut self, m: &Message)
        requires customer { (0 < m.now.customer) × (m.now.customer ≤ length self.old.freed) }
        ensures { self.new ≡ (spec.ask m.now self.old).0 }
    {
        let claim = claim_of(m);
        if self.is_past(m) {
            return;
        }
        match self.holder {
            None => self.holder = Some(claim),
            Some(holder) => {
                if holder.customer == claim.customer && holder.number == claim.number {
                    return;
                }
                self.wait(claim);
            }
        }
    }

    /// Puts a claim among those that wait.
    fn wait(&mut self, claim: Holder)
        requires { claim.customer ≤ length self.old.freed }
        ensures { self.new ≡ record { id = self.old.id; holder = self.old.holder; freed = self.old.freed; waiting = spec.put_waiting claim self.old.waiting } }
    {
        match place_of(&self.waiting, claim.customer) {
            Some(i) => {
                let waiting = &mut self.waiting[i];
                waiting.number = waiting.number.max(claim.number);
            }
            None => self.waiting.push_reserved(claim),
        }
    }

    fn leave_answers(&self, m: &Message) -> Answers
        requires customer { (0 < m.now.customer) × (m.now.customer ≤ length self.now.freed) }
        ensures { result ≡ (spec.leave m.now self.now).1 }
    {
        let freed = self.freed[m.customer as usize - 1].max(m.number);
        let gone = answer(MessageKind::Gone, m);
        match self.holder {
            Some(holder) if holder.customer == m.customer && holder.number <= freed => Answers {
                first: Some(gone),
                second: self.next_grant(m.customer, freed),
            },
            _ => one(gone),
        }
    }

    /// The grant to the first that waits once a customer freed a number.
    fn next_grant(&self, customer: u32, freed: u64) -> Option<Message>
        ensures { result ≡ option_map (spec.grant self.now.id) (spec.first_after customer freed self.now.waiting) }
    {
        match next_waiting(&self.waiting, customer, freed) {
            None => None,
            Some(claim) => Some(grant(self.id, claim)),
        }
    }

    fn leave(&mut self, m: &Message)
        requires customer { (0 < m.now.customer) × (m.now.customer ≤ length self.old.freed) }
        ensures { self.new ≡ (spec.leave m.now self.old).0 }
    {
        let place = m.customer as usize - 1;
        let freed = self.freed[place].max(m.number);
        self.freed[place] = freed;
        self.wait_no_more(m.customer, freed);
        match self.holder {
            Some(holder) if holder.customer == m.customer && holder.number <= freed => {
                self.hand_on();
            }
            _ => {}
        }
    }

    /// Takes a customer out of those that wait, where its number there is freed.
    fn wait_no_more(&mut self, customer: u32, freed: u64)
        requires { (0 < customer) × (freed ≡ spec.freed_of self.old customer) }
        ensures { self.new ≡ record {
          id =
              self.old.id;
          holder = self.old.holder;
          freed = self.old.freed;
          waiting = spec.without self.old.freed customer self.old.waiting;
        } }
    {
        if let Some(i) = freed_place(&self.waiting, customer, freed) {
            let _claim = self.waiting.remove(i);
        }
    }

    /// Gives the resource to the first that waits.
    fn hand_on(&mut self)
        ensures { self.new ≡ spec.next_holder self.old }
    {
        if self.waiting.len() == 0 {
            self.holder = None;
            return;
        }
        let next = self.waiting.remove(0);
        self.holder = Some(next);
    }
}

/// No answer.
const SILENT: Answers = Answers {
    first: None,
    second: None,
};

fn one(m: Message) -> Answers
    ensures { result ≡ spec.one m }
{
    Answers {
        first: Some(m),
        second: None,
    }
}

fn claim_of(m: &Message) -> Holder
    ensures { result ≡ spec.claim_of m.now }
{
    Holder {
        customer: m.customer,
        number: m.number,
    }
}

fn answer(kind: MessageKind, m: &Message) -> Message
    ensures { result ≡ spec.answer kind m.now }
{
    Message {
        kind,
        customer: m.customer,
        resource: m.resource,
        number: m.number,
    }
}

fn grant(resource: u32, claim: Holder) -> Message
    ensures { result ≡ spec.grant resource claim }
{
    Message {
        kind: MessageKind::Grant,
        customer: claim.customer,
        resource,
        number: claim.number,
    }
}

/// The place at which a customer waits.
fn place_of(waiting: &[Holder], customer: u32) -> Option<usize>
    ensures { result ≡ position (λ w. customer == w.customer) waiting.now }
{
    waiting.iter().position(|w| customer == w.customer)
}

/// The place of the first claim of a customer with a number that is freed.
fn freed_place(waiting: &[Holder], customer: u32, freed: u64) -> Option<usize>
    ensures { result ≡ position (λ w. w.customer == customer && nat_le w.number freed) waiting.now }
{
    waiting
        .iter()
        .position(|w| w.customer == customer && w.number <= freed)
}

/// The first that waits once a customer freed a number.
fn next_waiting(waiting: &[Holder], customer: u32, freed: u64) -> Option<Holder>
    ensures { result ≡ spec.first_after customer freed waiting.now }
{
    match waiting {
        [first, behind @ ..] if first.customer == customer && first.number <= freed => {
            behind.first().copied()
        }
        _ => waiting.first().copied(),
    }
}
