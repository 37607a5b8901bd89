ghost use Rattle.std.specs.Prelude.{◌/◌, ◌∷◌, []};

use node_reach::{Arrows, order, reach};
use std::alloc::{AllocError, Global};
use std::test::Fail;

// Numbers below a count, each with an arrow to its half, rounded down.
#[derive(Drop)]
struct Halves {
    count: usize,
}

impl Arrows for Halves {
    ghost count = { λ s. s.count };

    ghost targets = { λ s n. n / 2 ∷ [] };

    fn arrows(&self, alloc: Global, node: usize) -> Result<Vec<usize>, AllocError> {
        let nodes = vec![in alloc; node / 2]?;
        Ok(nodes)
    }
}

const TEN: Halves = Halves { count: 10 };

// Whether 9 and 3 lead to these numbers, in this order.
fn lead_to(alloc: Global, numbers: &[usize]) -> Result<bool, AllocError> {
    let nodes = reach(alloc, &TEN, &[9, 3])?;
    Ok(nodes.as_slice() == numbers)
}

// Whether what 9 and 3 lead to has this order, and on a cycle are those for which this says so.
fn are_ordered(alloc: Global, numbers: &[usize], on_cycle: &[bool]) -> Result<bool, AllocError> {
    let walk = order(alloc, &TEN, &[9, 3])?;
    Ok(walk.nodes.as_slice() == numbers && walk.on_cycle.as_slice() == on_cycle)
}

#[test]
fn halves_are_reached(rt: HostRuntime) -> Result<(), Fail> {
    assert!(rt; lead_to(rt.alloc(), &[0, 2, 1, 4, 3, 9])?);
    let on_cycle = [true, false, false, false, false, false];
    assert!(rt; are_ordered(rt.alloc(), &[0, 1, 2, 4, 9, 3], &on_cycle)?);
    Ok(())
}
