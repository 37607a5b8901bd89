// Whether a formula has a lost reference.
ghost use Rattle.std.specs.Prelude.{◌≡◌};
ghost use Rattle.formula_tree.specs.Relative.{relative, relative_list};
ghost use Rattle.restored_values.specs.Suspects as suspects;

use cell_value::FaultKind;
use formula_tree::{Node, Tree, TreeList};

/// Whether the fault `#REF!` is a part of the formula, wherever it stands. Takes no memory, and costs about the nodes of the tree.
pub fn has_lost(tree: &Tree) -> bool
    ensures { result ≡ suspects.has_lost (relative tree.now.value) }
{
    node_has_lost(tree)
}

// Whether the tree has the fault as a part.
#[cycle(lost)]
fn node_has_lost(node: &Node) -> bool
    ensures { result ≡ suspects.has_lost (relative node.now) }
{
    match node {
        Node::Fault(kind) => is_ref(*kind),
        Node::Prefix(_, part) => node_has_lost(part),
        Node::Percent(part) => node_has_lost(part),
        Node::Paren(part) => node_has_lost(part),
        Node::Binary(_, left, right) => node_has_lost(left) || node_has_lost(right),
        Node::Call(_, list) => some_has_lost(list),
        Node::Number(_) | Node::Text(_) | Node::Truth(_) | Node::Name(_) => false,
        Node::Cell(_) | Node::Area(_, _) => false,
        Node::WholeRows(_, _, _) | Node::WholeCols(_, _, _) => false,
    }
}

// Whether one of the arguments has.
#[cycle(lost)]
fn some_has_lost(list: &TreeList) -> bool
    ensures { result ≡ suspects.any_has_lost (relative_list list.now) }
{
    'arguments: for argument in list.items() {
        if node_has_lost(argument) {
            return true;
        }
    }
    false
}

// Whether the fault is that of a lost reference.
fn is_ref(kind: FaultKind) -> bool
    ensures { result ≡ suspects.is_ref kind }
{
    match kind {
        FaultKind::Ref => true,
        _ => false,
    }
}
