// What may happen next.

/// What happens on the wire. Customers, resources and messages are numbered from 1.
#[derive(Clone, Copy)]
pub enum Event {
    /// The customer asks for the resource.
    Ask { customer: u32, resource: u32 },
    /// The customer sends again what it sent last.
    Again(u32),
    /// The customer leaves what it asked for or holds.
    Leave(u32),
    /// The message comes to the end that it names.
    Deliver(u64),
    /// The customer starts again from what it stored.
    RestartCustomer(u32),
    /// The resource starts again from what it stored.
    RestartResource(u32),
    /// All ends are shown, and nothing happens.
    Show,
}
