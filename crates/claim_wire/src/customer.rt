// The customer's end of a claim.
ghost use Rattle.std.specs.Prelude.{◌≡◌, ◌<◌, ◌-◌, ◌^◌};
ghost use Rattle.claim_wire.specs.Customers as spec;

use crate::message::{Message, MessageKind};
use std::marker::Model;

/// Where a customer is with its claim: it has none, asked for one, holds it, or leaves it.
#[derive(Clone, Copy, PartialEq, Eq)]
pub enum Phase {
    Idle,
    Asked,
    Holding,
    Leaving,
}

/// A customer. Its number and its target are stored and outlive a restart; its phase isn't.
#[derive(Clone, Copy)]
pub struct Customer {
    id: u32,
    number: u64,
    target: Option<u32>,
    phase: Phase,
}

impl Model for Customer {
    ghost use Rattle.claim_wire.specs.Customers.{CustomerState};

    ghost Value = { CustomerState };

    ghost view = { λ c. record { id = c.id; number = c.number; target = c.target; phase = c.phase } };

    ghost inverse = { λ s. record { id = s.id; number = s.number; target = s.target; phase = s.phase } };
}

impl Customer {
    /// A customer that never asked.
    pub fn new(id: u32) -> Customer
        ensures { result ≡ spec.new_customer id }
    {
        Customer {
            id,
            number: 0,
            target: None,
            phase: Phase::Idle,
        }
    }

    pub(crate) fn id(&self) -> u32
        ensures { result ≡ self.now.id }
    {
        self.id
    }

    /// Where the customer is with its claim.
    pub fn phase(&self) -> Phase
        ensures { result ≡ self.now.phase }
    {
        self.phase
    }

    /// The resource that the customer asked for last, until it is gone.
    pub fn target(&self) -> Option<u32>
        ensures { result ≡ self.now.target }
    {
        self.target
    }

    /// The number of the customer's last claim, 0 before the first.
    pub fn number(&self) -> u64
        ensures { result ≡ self.now.number }
    {
        self.number
    }

    /// Asks for a resource under a new number. `None` exactly where the customer isn't idle, and then nothing changes.
    pub fn ask(&mut self, resource: u32) -> Option<Message>
        requires { self.old.number < 2 ^ 64 - 1 }
        ensures sent { result ≡ (spec.ask resource self.old).1 }
        ensures new { self.new ≡ (spec.ask resource self.old).0 }
    {
        if self.phase != Phase::Idle {
            return None;
        }
        self.number += 1;
        self.target = Some(resource);
        self.phase = Phase::Asked;
        Some(self.message(MessageKind::Ask))
    }

    /// The message that the customer sent last, once more. `None` exactly where it is idle or holds its claim.
    pub fn again(&self) -> Option<Message>
        ensures { result ≡ spec.again self.now }
    {
        match self.phase {
            Phase::Asked => Some(self.message(MessageKind::Ask)),
            Phase::Leaving => Some(self.message(MessageKind::Leave)),
            Phase::Idle => None,
            Phase::Holding => None,
        }
    }

    /// Leaves a claim that it asked for or holds. `None` exactly where it is idle or leaves already, and then nothing
    /// changes.
    pub fn leave(&mut self) -> Option<Message>
        ensures sent { result ≡ (spec.leave self.old).1 }
        ensures new { self.new ≡ (spec.leave self.old).0 }
    {
        match self.phase {
            Phase::Asked | Phase::Holding => {
                self.phase = Phase::Leaving;
                Some(self.message(MessageKind::Leave))
            }
            Phase::Idle | Phase::Leaving => None,
        }
    }

    /// Takes a message: a grant of what it asked for, or that what it leaves is gone. Any other changes nothing.
    pub fn take(&mut self, m: &Message)
        ensures { self.new ≡ spec.take m.now self.old }
    {
        if self.target != Some(m.resource) || self.number != m.number {
            return;
        }
        match (self.phase, m.kind) {
            (Phase::Asked, MessageKind::Grant) => self.phase = Phase::Holding,
            (Phase::Leaving, MessageKind::Gone) => {
                self.target = None;
                self.phase = Phase::Idle;
            }
            _ => {}
        }
    }

    /// Starts again from what is stored: what it asked for it leaves.
    pub fn restart(&mut self)
        ensures { self.new ≡ spec.restart self.old }
    {
        self.phase = if self.target.is_some() {
            Phase::Leaving
        } else {
            Phase::Idle
        };
    }

    fn message(&self, kind: MessageKind) -> Message
        ensures { result ≡ spec.message_of kind self.now }
    {
        Message {
            kind,
            customer: self.id,
            resource: self.target.unwrap_or(0),
            number: self.number,
        }
    }
}
