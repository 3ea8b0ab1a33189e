// What the two ends of a claim send to each other.

/// What a message says: a customer asks for a resource or leaves it, and a resource grants a claim or tells that it is
/// gone.
#[derive(Clone, Copy, Debug, PartialEq, Eq)]
pub enum MessageKind {
    Ask,
    Grant,
    Leave,
    Gone,
}

/// A message between a customer and a resource, about the customer's claim of this number.
#[derive(Clone, Copy, Debug, PartialEq, Eq)]
pub struct Message {
    pub kind: MessageKind,
    pub customer: u32,
    pub resource: u32,
    pub number: u64,
}

/// Who holds a resource, or waits for it, and with which number.
#[derive(Clone, Copy, Debug, PartialEq, Eq)]
pub struct Holder {
    pub customer: u32,
    pub number: u64,
}

/// The messages that a resource sends for one that it took, in order.
#[derive(Clone, Copy)]
pub struct Answers {
    pub first: Option<Message>,
    pub second: Option<Message>,
}
