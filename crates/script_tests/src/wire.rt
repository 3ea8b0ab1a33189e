// What no schedule brings to a resource, and words of a schedule's line.
ghost use Rattle.std.specs.Prelude.{◌≡◌, ◌<◌, ◌≤◌, length};

use claim_wire::*;
use std::process::Abort;
use std::test::Fail;

fn message(kind: MessageKind, customer: u32, number: u64) -> Message
    ensures { result.customer ≡ customer }
{
    Message {
        kind,
        customer,
        resource: 1,
        number,
    }
}

/// What a resource of two customers answers to a message.
fn take(resource: &mut Resource, kind: MessageKind, customer: u32, number: u64) -> Answers
    requires customer { (0 < customer) × (customer ≤ length resource.old.freed) }
    ensures { length resource.new.freed ≡ length resource.old.freed }
{
    resource.take(&message(kind, customer, number))
}

fn assert_sent(rt: &impl Abort, sent: Option<Message>, wanted: Option<Message>) {
    assert_eq!(rt; sent, wanted);
}

/// What no schedule brings: a customer that waits asks with other numbers, and leaves with a lower one than it holds.
#[test]
fn a_customer_waits_with_its_greatest_number(rt: HostRuntime) -> Result<(), Fail> {
    let mut resource = Resource::new(rt.alloc(), 1, 2)?;
    take(&mut resource, MessageKind::Ask, 1, 1);
    take(&mut resource, MessageKind::Ask, 2, 1);
    take(&mut resource, MessageKind::Ask, 2, 3);
    take(&mut resource, MessageKind::Ask, 2, 2);
    let left = take(&mut resource, MessageKind::Leave, 1, 1);
    assert_sent(&rt, left.first, Some(message(MessageKind::Gone, 1, 1)));
    assert_sent(&rt, left.second, Some(message(MessageKind::Grant, 2, 3)));
    let late = take(&mut resource, MessageKind::Leave, 2, 2);
    assert_sent(&rt, late.second, None);
    let holder = Holder {
        customer: 2,
        number: 3,
    };
    assert_eq!(rt; resource.holder(), Some(holder));
    Ok(())
}
