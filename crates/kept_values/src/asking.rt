// Formulas that ask where a reference is.
ghost use Rattle.std.specs.Prelude.{◌≡◌};
ghost use Rattle.formula_tree.specs.Reference.{base_of, corner_at};
ghost use Rattle.formula_tree.specs.Relative.{relative, relative_list};
ghost use Rattle.formula_tree.specs.StandsFor.{at_home};
ghost use Rattle.formula_tree.specs.Term.{each_corner_all};
ghost use Rattle.marked_values.specs.Shifts.{any_asks_place, asks_place};

use formula_tree::{Home, Node as TreeNode, Tree, TreeList, is_place_word};

// Whether the formula calls a function that asks where a reference is.
pub(crate) fn asks_place(tree: &Tree, home: Home) -> bool
    ensures { result ≡ asks_place (at_home home (relative tree.now.value)) }
{
    node_asks(tree, home)
}

// Whether the tree does.
#[cycle(asks)]
fn node_asks(node: &TreeNode, home: Home) -> bool
    ensures { result ≡ asks_place (at_home home (relative node.now)) }
{
    match node {
        TreeNode::Prefix(_, part) => node_asks(part, home),
        TreeNode::Percent(part) => node_asks(part, home),
        TreeNode::Paren(part) => node_asks(part, home),
        TreeNode::Binary(_, left, right) => node_asks(left, home) || node_asks(right, home),
        TreeNode::Call(word, list) => is_place_word(word.as_str()) || some_ask(list, home),
        TreeNode::Number(_) | TreeNode::Text(_) | TreeNode::Truth(_) | TreeNode::Fault(_) => false,
        TreeNode::Cell(_) | TreeNode::Area(_, _) | TreeNode::Name(_) => false,
        TreeNode::WholeRows(_, _, _) | TreeNode::WholeCols(_, _, _) => false,
    }
}

// Whether one of the arguments does.
#[cycle(asks)]
fn some_ask(list: &TreeList, home: Home) -> bool
    ensures { result ≡ any_asks_place (each_corner_all (corner_at (base_of home)) (relative_list list.now)) }
{
    'arguments: for argument in list.items() {
        if node_asks(argument, home) {
            return true;
        }
    }
    false
}
