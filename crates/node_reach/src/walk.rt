// What is reached, in any order and in order.
ghost use Rattle.std.specs.Prelude.{◌≡◌, ◌<◌, map, length, IfOk, slice_index_or};
ghost use Rattle.std.specs.List.{All};
ghost use Rattle.node_reach.specs.Arrows.{AreReached, CyclesAre, InOrder};

use crate::arrows::Arrows;
use crate::explored::explore;
use std::alloc::{AllocError, Global};

/// What is reached, in an order in which each node stands after all to which its arrows lead.
#[derive(Debug, Drop)]
pub struct Walk {
    /// Each reached node once.
    pub nodes: Vec<usize>,
    /// For each of them, by its place among them, whether arrows lead from it back to it.
    pub on_cycle: Vec<bool>,
}

/// The nodes to which arrows lead from the starts, one or more after another, and the starts: each once, those first that
/// were found last. Whoever goes through them by [`order`] meets what one arrow leads to the other way round, in the order of
/// the arrows. Costs about the number of reached nodes and of their arrows. Errs for want of memory.
pub fn reach<A: Arrows>(
    alloc: Global,
    graph: &A,
    starts: &[usize],
) -> Result<Vec<usize>, AllocError>
    requires { All (λ a. a < A.count graph.now) starts.now }
    ensures { IfOk result (λ nodes. AreReached (A.targets graph.now) starts.now nodes.items) }
{
    let found = explore(alloc, graph, starts)?;
    let mut nodes = Vec::from_slice(alloc, found.nodes.as_slice())?;
    nodes.reverse();
    Ok(nodes)
}

/// The same nodes, each once, in order: all to which a node's arrows lead, one or more after another, stands before
/// it, except what leads back to it. So the nodes of a cycle have any order among themselves. Also says which nodes
/// are on a cycle. Costs about what [`reach`] does. Errs for want of memory.
pub fn order<A: Arrows>(alloc: Global, graph: &A, starts: &[usize]) -> Result<Walk, AllocError>
    requires { All (λ a. a < A.count graph.now) starts.now }
    ensures reached { IfOk result (λ walk. AreReached (A.targets graph.now) starts.now walk.nodes.items) }
    ensures counts { IfOk result (λ walk. length walk.on_cycle.items ≡ length walk.nodes.items) }
    ensures cycles { IfOk result (λ walk. CyclesAre (A.targets graph.now) walk.nodes.items walk.on_cycle.items) }
    ensures in_order { IfOk result (λ walk. InOrder (A.targets graph.now) walk.nodes.items) }
{
    let found = explore(alloc, graph, starts)?;
    let lists = found.lists.as_slice();
    let order = needs_order::order(alloc, lists)?;
    let places = order.nodes.as_slice();
    let keys = found.nodes.as_slice();
    let nodes = read(alloc, keys, places)?;
    let flags = order.on_cycle.as_slice();
    let on_cycle = read(alloc, flags, places)?;
    Ok(Walk { nodes, on_cycle })
}

// What the list has at the places, in their order.
fn read<T: Copy>(alloc: Global, list: &[T], places: &[usize]) -> Result<Vec<T>, AllocError>
    requires { All (λ p. p < length list.now) places.now }
    ensures { IfOk result (λ found. (d : T) → found.items ≡ map (λ p. slice_index_or list.now p d) places.now) }
{
    let mut found = Vec::with_capacity(alloc, places.len())?;
    'places: for place in places {
        found.push(list[*place])?;
    }
    Ok(found)
}
