// Nodes that are drawn.
use dep_graph::Node;
use draws::Draws;

// A node: a cell mostly, else a range, a whole range or a name.
pub(crate) fn any_node(draws: &mut Draws) -> Node {
    match draws.below(10) {
        0 => any_name(draws),
        1..4 => Node::Range(draws.block()),
        4 => Node::Whole(draws.whole()),
        _ => Node::Cell(draws.place()),
    }
}

// A name of one of two scopes.
fn any_name(draws: &mut Draws) -> Node {
    Node::Name {
        scope: draws.below(2),
        word: u64::from(draws.below(2)),
    }
}
