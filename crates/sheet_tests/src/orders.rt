ghost use Rattle.needs_order.specs.Needs.{AreNodes, lists_of};

use needs_order::{Order, order};
use std::alloc::{AllocError, Global};
use std::test::Fail;

// Whether the nodes are in order, and those on a cycle are known.
fn is_right(order: &Order) -> bool {
    let are_known = order.on_cycle.as_slice() == [false, false, true, true, true, true].as_slice();
    are_known && order.nodes.as_slice() == [1, 2, 3, 4, 0, 5].as_slice()
}

// Whether these needs are put in order.
fn are_ordered(alloc: Global, needs: &[Vec<usize>]) -> Result<bool, AllocError>
    requires { AreNodes (lists_of needs.now) }
{
    let order = order(alloc, needs)?;
    Ok(is_right(&order))
}

#[test]
fn nodes_after_their_needs(rt: HostRuntime) -> Result<(), Fail> {
    let alloc = rt.alloc();
    let needs = [
        vec![in alloc; 1, 2, 1]?,
        vec![in alloc]?,
        vec![in alloc; 3]?,
        vec![in alloc; 4, 1]?,
        vec![in alloc; 2]?,
        vec![in alloc; 5]?,
    ];
    assert!(rt; are_ordered(alloc, &needs)?);
    Ok(())
}
