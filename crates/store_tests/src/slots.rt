// Slots that leave in any order, and names that lead to them.
use slot_order::*;
use std::test::Fail;

#[test]
fn slots_keep_their_order(rt: HostRuntime) -> Result<(), Fail> {
    let mut order = SlotOrder::new(rt.alloc());
    order.push(7)?;
    order.push(3)?;
    order.push(5)?;
    assert!(rt; order.remove(3) && !order.remove(3));
    assert!(rt; order.len() == 2 && order.place(5) == Some(1));
    order.settle();
    assert!(rt; order.at(1) == Some(5));
    Ok(())
}
