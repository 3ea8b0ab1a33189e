// A run of the two ends on a schedule.
ghost use Rattle.std.specs.Prelude.{◌≡◌, ◌≤◌, ◌↔◌, length, Some, None, IfOk, IsTrue, OnOk, OnErr, MatchResult, Contains};
ghost use Rattle.claim_wire.specs.Facts.{Facts, IsRequest, IsSafe, HasOneHolder};
ghost use Rattle.claim_wire.specs.Customers as moves;
ghost use Rattle.claim_wire.specs.Replies as texts;
ghost use Rattle.claim_wire.specs.Resources as changes;
ghost use Rattle.claim_wire.specs.Wires as spec;
ghost use Rattle.claim_wire.specs.Wires.{IsNamed, IsNumber, IsFaultOf};

use crate::customer::{Customer, Phase};
use crate::event::Event;
use crate::fault::WireFault;
use crate::message::{Answers, Message, MessageKind};
use crate::replies::{append_customers, append_resources, note, quiet};
use crate::resource::Resource;
use pool_text::{OutOfMemory, Text};
use std::alloc::Global;
use std::marker::Model;

/// After more messages than these no other is sent.
const MOST_SENT: usize = 999_998;

/// Resources and customers, numbered from 1, and all messages that were ever sent, numbered from 1 too. A message may be
/// delivered any number of times, in any order, or never, so a schedule of events holds all losses, repeats and
/// reorderings.
#[derive(Drop)]
pub struct Wire {
    customers: Vec<Customer>,
    resources: Vec<Resource>,
    sent: Vec<Message>,
    alloc: Global,
}

impl Model for Wire {
    ghost use Rattle.claim_wire.specs.Facts.{Facts};
    ghost use Rattle.claim_wire.specs.Wires.{WireState};

    ghost Value = { WireState };

    ghost view = { λ w. record { customers = w.customers.items; resources = w.resources.items; sent = w.sent.items } };

    ghost invariant = { λ w. Facts (record { customers = w.customers.items; resources = w.resources.items; sent = w.sent.items }) };
}

impl Wire {
    /// So many resources that nobody held, and so many customers that never asked.
    pub fn new(alloc: Global, resources: u32, customers: u32) -> Result<Wire, OutOfMemory>
        requires resources { IsNumber 100 resources }
        requires customers { IsNumber 100 customers }
        ensures new { IfOk result (λ wire. wire ≡ spec.new_wire resources customers) }
        ensures ends { IfOk result (λ wire. (length wire.resources ≡ resources) × (length wire.customers ≡ customers)) }
    {
        let holders = new_resources(alloc, resources, customers)?;
        let askers = new_customers(alloc, customers)?;
        Ok(Wire {
            customers: askers,
            resources: holders,
            sent: Vec::new(alloc),
            alloc,
        })
    }

    /// Lets the next event happen, and tells it: the messages that it sends, one a line, or `quiet`; for `Show` the
    /// holder of each resource and the phase of each customer. `TooMany` comes first, exactly where more than 999,998
    /// messages were sent before an ask, a message sent again, a leave or a delivery. After any fault the wire is
    /// unchanged. Whatever happened, the wire keeps `Facts`: what holds of its messages, numbers and holders from the first
    /// event on. So a customer that holds a resource with a number is the holder of that resource with that number, and no
    /// two customers hold one resource.
    pub fn step(&mut self, event: &Event) -> Result<Text, WireFault>
        requires { IsNamed (length self.old.resources) (length self.old.customers) event.now }
        ensures fault { MatchResult result (λ _. spec.fault_of event.now self.old ≡ None) (λ fault. IsFaultOf (spec.fault_of event.now self.old) fault) }
        ensures new { OnOk result (self.new ≡ spec.step event.now self.old) }
        ensures reply { IfOk result (λ text. text ≡ texts.reply_of event.now self.old) }
        ensures unchanged { OnErr result (self.new ≡ self.old) }
        ensures facts { Facts self.new }
        ensures safe { IsSafe self.new }
        ensures one_holder { HasOneHolder self.new }
        ensures resources { length self.new.resources ≡ length self.old.resources }
        ensures customers { length self.new.customers ≡ length self.old.customers }
    {
        self.kept();
        if let Some(fault) = self.fault(event) {
            return Err(fault);
        }
        match self.happen(event) {
            Ok(text) => Ok(text),
            Err(_) => Err(WireFault::OutOfMemory),
        }
    }

    /// Why an event is refused.
    fn fault(&self, event: &Event) -> Option<WireFault>
        requires { IsNamed (length self.now.resources) (length self.now.customers) event.now }
        ensures { result ≡ spec.fault_of event.now self.now }
    {
        match *event {
            Event::Ask { customer, .. } => self.limited(ask_fault(self.phase(customer))),
            Event::Again(customer) => self.limited(again_fault(self.phase(customer))),
            Event::Leave(customer) => self.limited(leave_fault(self.phase(customer))),
            Event::Deliver(number) => self.limited(message_fault(self.message(number))),
            Event::RestartCustomer(_) => None,
            Event::RestartResource(_) => None,
            Event::Show => None,
        }
    }

    /// The fault, unless too many messages were sent.
    fn limited(&self, fault: Option<WireFault>) -> Option<WireFault>
        ensures { result ≡ spec.limited self.now.sent fault }
    {
        if self.sent.len() > MOST_SENT {
            Some(WireFault::TooMany)
        } else {
            fault
        }
    }

    /// What each step keeps. Nothing is done here: the proof of `step` learns it.
    fn kept(&self)
        ensures { Facts self.now }
    {
        let _sent = &self.sent;
    }

    fn has_customer(&self, number: u32) -> bool
        ensures { IsTrue result ↔ IsNumber (length self.now.customers) number }
    {
        0 < number && number as usize <= self.customers.len()
    }

    fn has_resource(&self, number: u32) -> bool
        ensures { IsTrue result ↔ IsNumber (length self.now.resources) number }
    {
        0 < number && number as usize <= self.resources.len()
    }

    fn customer(&self, number: u32) -> Customer
        requires { IsNumber (length self.now.customers) number }
        ensures customer { spec.at self.now.customers number ≡ Some result }
        ensures facts { Facts self.now }
    {
        self.customers[number as usize - 1]
    }

    fn phase(&self, customer: u32) -> Phase
        requires { IsNumber (length self.now.customers) customer }
        ensures { spec.phase_of customer self.now ≡ Some result }
    {
        self.customer(customer).phase()
    }

    /// The message with this number.
    fn message(&self, number: u64) -> Option<Message>
        ensures { result ≡ spec.at self.now.sent number }
    {
        if number == 0 || number > self.sent.len() as u64 {
            return None;
        }
        Some(self.sent[number as usize - 1])
    }

    fn happen(&mut self, event: &Event) -> Result<Text, OutOfMemory>
        requires named { IsNamed (length self.old.resources) (length self.old.customers) event.now }
        requires fault { spec.fault_of event.now self.old ≡ None }
        ensures new { OnOk result (self.new ≡ spec.happens event.now self.old) }
        ensures reply { IfOk result (λ text. text ≡ texts.reply_of event.now self.old) }
        ensures unchanged { OnErr result (self.new ≡ self.old) }
    {
        match *event {
            Event::Ask { customer, resource } => self.ask(customer, resource),
            Event::Again(customer) => self.again(customer),
            Event::Leave(customer) => self.leave(customer),
            Event::Deliver(number) => self.deliver(number),
            Event::RestartCustomer(customer) => self.restart_customer(customer),
            Event::RestartResource(resource) => self.restart_resource(resource),
            Event::Show => self.show(),
        }
    }

    fn ask(&mut self, customer: u32, resource: u32) -> Result<Text, OutOfMemory>
        requires customer { IsNumber (length self.old.customers) customer }
        requires room { length self.old.sent ≤ 999998 }
        ensures new { OnOk result (self.new ≡ spec.with_customer customer (moves.ask resource) self.old) }
        ensures reply { IfOk result (λ text. text ≡ texts.told self.old (spec.with_customer customer (moves.ask resource) self.old)) }
        ensures unchanged { OnErr result (self.new ≡ self.old) }
    {
        let mut moved = self.customer(customer);
        let message = moved.ask(resource);
        self.put_customer(customer, moved, message)
    }

    fn again(&mut self, customer: u32) -> Result<Text, OutOfMemory>
        requires { IsNumber (length self.old.customers) customer }
        ensures new { OnOk result (self.new ≡ spec.with_customer customer (λ s. (s, moves.again s)) self.old) }
        ensures reply { IfOk result (λ text. text ≡ texts.told self.old (spec.with_customer customer (λ s. (s, moves.again s)) self.old)) }
        ensures unchanged { OnErr result (self.new ≡ self.old) }
    {
        let same = self.customer(customer);
        self.put_customer(customer, same, same.again())
    }

    fn leave(&mut self, customer: u32) -> Result<Text, OutOfMemory>
        requires { IsNumber (length self.old.customers) customer }
        ensures new { OnOk result (self.new ≡ spec.with_customer customer moves.leave self.old) }
        ensures reply { IfOk result (λ text. text ≡ texts.told self.old (spec.with_customer customer moves.leave self.old)) }
        ensures unchanged { OnErr result (self.new ≡ self.old) }
    {
        let mut moved = self.customer(customer);
        let message = moved.leave();
        self.put_customer(customer, moved, message)
    }

    fn restart_customer(&mut self, customer: u32) -> Result<Text, OutOfMemory>
        requires { IsNumber (length self.old.customers) customer }
        ensures new { OnOk result (self.new ≡ spec.with_customer customer (λ s. (moves.restart s, None)) self.old) }
        ensures reply { IfOk result (λ text. text ≡ texts.told self.old (spec.with_customer customer (λ s. (moves.restart s, None)) self.old)) }
        ensures unchanged { OnErr result (self.new ≡ self.old) }
    {
        let mut moved = self.customer(customer);
        moved.restart();
        self.put_customer(customer, moved, None)
    }

    fn to_customer(&mut self, m: &Message) -> Result<Text, OutOfMemory>
        requires { Contains self.old.sent m.now }
        ensures new { OnOk result (self.new ≡ spec.with_customer m.now.customer (λ s. (moves.take m.now s, None)) self.old) }
        ensures reply { IfOk result (λ text. text ≡ texts.told self.old (spec.with_customer m.now.customer (λ s. (moves.take m.now s, None)) self.old)) }
        ensures unchanged { OnErr result (self.new ≡ self.old) }
    {
        let known = self.has_customer(m.customer);
        if !known {
            return quiet(self.alloc);
        }
        let mut moved = self.customer(m.customer);
        moved.take(m);
        self.put_customer(m.customer, moved, None)
    }

    /// Puts a customer that moved in its place, and notes what it sent.
    fn put_customer(
        &mut self,
        number: u32,
        moved: Customer,
        message: Option<Message>,
    ) -> Result<Text, OutOfMemory>
        requires number { IsNumber (length self.old.customers) number }
        requires kept { Facts (spec.moved number (Some (moved, message)) self.old) }
        ensures new { OnOk result (self.new ≡ spec.moved number (Some (moved, message)) self.old) }
        ensures reply { IfOk result (λ text. text ≡ texts.told self.old (spec.moved number (Some (moved, message)) self.old)) }
        ensures unchanged { OnErr result (self.new ≡ self.old) }
    {
        let answers = only(message);
        let text = note(self.alloc, &mut self.sent, &answers)?;
        self.customers[number as usize - 1] = moved;
        Ok(text)
    }

    fn restart_resource(&mut self, resource: u32) -> Result<Text, OutOfMemory>
        requires { IsNumber (length self.old.resources) resource }
        ensures new { OnOk result (self.new ≡ spec.with_resource resource (λ r. (changes.restart r, changes.silent)) self.old) }
        ensures reply { IfOk result (λ text. text ≡ texts.told self.old (spec.with_resource resource (λ r. (changes.restart r, changes.silent)) self.old)) }
        ensures unchanged { OnErr result (self.new ≡ self.old) }
    {
        let text = quiet(self.alloc)?;
        self.resources[resource as usize - 1].restart();
        Ok(text)
    }

    /// Brings the message with this number to the end that it names.
    fn deliver(&mut self, number: u64) -> Result<Text, OutOfMemory>
        ensures new { OnOk result (self.new ≡ spec.comes (spec.at self.old.sent number) self.old) }
        ensures reply { IfOk result (λ text. text ≡ texts.told self.old (spec.comes (spec.at self.old.sent number) self.old)) }
        ensures unchanged { OnErr result (self.new ≡ self.old) }
    {
        match self.message(number) {
            Some(m) => self.bring(&m),
            None => quiet(self.alloc),
        }
    }

    fn bring(&mut self, m: &Message) -> Result<Text, OutOfMemory>
        requires { Contains self.old.sent m.now }
        ensures new { OnOk result (self.new ≡ spec.comes_by m.now.kind m.now self.old) }
        ensures reply { IfOk result (λ text. text ≡ texts.told self.old (spec.comes_by m.now.kind m.now self.old)) }
        ensures unchanged { OnErr result (self.new ≡ self.old) }
    {
        match m.kind {
            MessageKind::Ask => self.to_resource(m),
            MessageKind::Leave => self.to_resource(m),
            MessageKind::Grant => self.to_customer(m),
            MessageKind::Gone => self.to_customer(m),
        }
    }

    fn to_resource(&mut self, m: &Message) -> Result<Text, OutOfMemory>
        requires sent { Contains self.old.sent m.now }
        requires request { IsRequest m.now.kind }
        ensures new { OnOk result (self.new ≡ spec.with_resource m.now.resource (changes.take m.now) self.old) }
        ensures reply { IfOk result (λ text. text ≡ texts.told self.old (spec.with_resource m.now.resource (changes.take m.now) self.old)) }
        ensures unchanged { OnErr result (self.new ≡ self.old) }
    {
        let known = self.has_resource(m.resource);
        if !known {
            return quiet(self.alloc);
        }
        let place = m.resource as usize - 1;
        let answers = self.resources[place].answers(m);
        let text = note(self.alloc, &mut self.sent, &answers)?;
        self.resources[place].change(m);
        Ok(text)
    }

    fn show(&self) -> Result<Text, OutOfMemory>
        ensures { IfOk result (λ text. text ≡ texts.show_text self.now) }
    {
        let mut text = Text::new(self.alloc);
        append_resources(&mut text, &self.resources)?;
        append_customers(&mut text, &self.customers)?;
        Ok(text)
    }
}

/// The customer's message and no other.
fn only(message: Option<Message>) -> Answers
    ensures { result ≡ record { first = message; second = None } }
{
    Answers {
        first: message,
        second: None,
    }
}

fn ask_fault(phase: Phase) -> Option<WireFault>
    ensures { result ≡ spec.ask_fault phase }
{
    match phase {
        Phase::Idle => None,
        Phase::Asked | Phase::Holding | Phase::Leaving => Some(WireFault::NotIdle),
    }
}

fn again_fault(phase: Phase) -> Option<WireFault>
    ensures { result ≡ spec.again_fault phase }
{
    match phase {
        Phase::Idle | Phase::Holding => Some(WireFault::NothingToSend),
        Phase::Asked | Phase::Leaving => None,
    }
}

fn leave_fault(phase: Phase) -> Option<WireFault>
    ensures { result ≡ spec.leave_fault phase }
{
    match phase {
        Phase::Idle | Phase::Leaving => Some(WireFault::NothingToLeave),
        Phase::Asked | Phase::Holding => None,
    }
}

fn message_fault(message: Option<Message>) -> Option<WireFault>
    ensures { result ≡ spec.message_fault message }
{
    match message {
        None => Some(WireFault::NoMessage),
        Some(_) => None,
    }
}

fn new_customers(alloc: Global, customers: u32) -> Result<Vec<Customer>, OutOfMemory>
    ensures { IfOk result (λ ends. ends.items ≡ spec.new_customers customers) }
{
    let mut ends = Vec::new(alloc);
    for before in 0..customers {
        ends.push(Customer::new(before + 1))?;
    }
    Ok(ends)
}

fn new_resources(
    alloc: Global,
    resources: u32,
    customers: u32,
) -> Result<Vec<Resource>, OutOfMemory>
    ensures { IfOk result (λ ends. ends.items ≡ spec.new_resources customers resources) }
{
    let mut ends = Vec::new(alloc);
    for before in 0..resources {
        ends.push(Resource::new(alloc, before + 1, customers)?)?;
    }
    Ok(ends)
}
