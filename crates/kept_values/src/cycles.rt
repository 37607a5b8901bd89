// Which cells are on a cycle of links.
ghost use Rattle.std.specs.Prelude.{◌≡◌, ◌++◌, ◌∷◌, [], Bool, IfOk, OnOk, filter, map, not};
ghost use Rattle.cell_addr.specs.declared.place.Place.{Place as PlaceSeen};
ghost use Rattle.dep_graph.specs.Nodes.{has, items_of};
ghost use Rattle.dep_graph.specs.declared.node.Node.{Node as NodeSeen};
ghost use Rattle.dep_graph.specs.declared.node.Node.TheVariants.{Cell};
ghost use Rattle.kept_values.specs.Cycles.{TellsCycles};

use crate::values::Values;
use cell_addr::Place;
use dep_graph::{Node, Nodes};
use indexmap::IndexSet;
use std::alloc::{AllocError, Global};

impl Values {
    ghost use Rattle.kept_values.specs.Values.{links_in};

    /// Those of the places whose cells are on a cycle of links, in their order. Costs what
    /// [`Graph::order`](dep_graph::Graph::order) of these cells does: about the links of all that they lead to. Errs for want of
    /// memory.
    pub fn on_cycle(&self, places: &[Place]) -> Result<Vec<Place>, AllocError>
        ensures { IfOk result (λ found. (test : PlaceSeen → Bool) → TellsCycles (links_in self.now) test → found.items ≡ filter test places.now) }
    {
        let nodes = nodes_of(self.alloc, places)?;
        let order = self.graph.order(&nodes)?;
        let ordered = set_of(self.alloc, order.items())?;
        left_out(self.alloc, &ordered, places)
    }
}

// The nodes of places.
fn nodes_of(alloc: Global, places: &[Place]) -> Result<Nodes, AllocError>
    ensures { IfOk result (λ nodes. items_of nodes ≡ map Cell places.now) }
{
    let mut nodes = Nodes::new(alloc)?;
    'places: for place in places {
        nodes.push(Node::Cell(*place))?;
    }
    Ok(nodes)
}

// The set of nodes.
fn set_of(alloc: Global, nodes: &[Node]) -> Result<IndexSet<Node>, AllocError>
    ensures { IfOk result (λ set. (a : NodeSeen) → has a set.keys ≡ has a nodes.now) }
{
    let mut set = IndexSet::new(alloc);
    'nodes: for node in nodes {
        set.insert(*node)?;
    }
    Ok(set)
}

// Those of the places whose cells aren't in the set.
fn left_out(alloc: Global, set: &IndexSet<Node>, places: &[Place]) -> Result<Vec<Place>, AllocError>
    ensures { IfOk result (λ left. left.items ≡ filter (λ p. not (has (Cell p) set.now.keys)) places.now) }
{
    let mut left = Vec::new(alloc);
    'places: for place in places {
        push_left_out(&mut left, set, *place)?;
    }
    Ok(left)
}

// Puts the place at the end, if its cell isn't in the set.
fn push_left_out(
    left: &mut Vec<Place>,
    set: &IndexSet<Node>,
    place: Place,
) -> Result<(), AllocError>
    ensures { OnOk result (left.new.items ≡ left.old.items ++ filter (λ p. not (has (Cell p) set.now.keys)) (place ∷ [])) }
{
    if !is_in(set, Node::Cell(place)) {
        left.push(place)?;
    }
    Ok(())
}

// Whether the node is in the set.
fn is_in(set: &IndexSet<Node>, a: Node) -> bool
    ensures { result ≡ has a set.now.keys }
{
    set.contains(&a)
}
