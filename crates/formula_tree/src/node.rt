// The trees of formulas as they are shared: seen from their homes.
ghost use Rattle.std.specs.Prelude.{◌≡◌, min, [], ◌∷◌, ◌++◌, IfOk, OnOk, OnErr};
ghost use Rattle.formula_tree.specs.Term.{Term, is_reference, depth_of, depth_of_all};
ghost use Rattle.formula_tree.specs.Relative.{relative, relative_list};
ghost use Rattle.formula_tree.specs.StandsFor.{StandsFor};
ghost use Rattle.formula_tree.specs.declared.reference.Corner.{Corner};
ghost use Rattle.formula_tree.specs.declared.reference.Home.{Home};

use crate::operator::{Op, Sign};
use crate::reference::{Part, Ref, SheetPart};
use cell_addr::Text;
use cell_value::FaultKind;
use fix_num::Fixed;
use std::alloc::{AllocError, Global};
use std::rc::Rc;

/// The tree of a formula, shared by all formulas that are equal as seen from their homes. What it
/// stands for depends on the home of the formula.
pub type Tree = Rc<Node>;

/// A node of a tree, whose references are as seen from the home of the formula.
#[derive(Drop)]
#[cycle(node)]
pub enum Node {
    /// A number as written, which has no sign.
    Number(Fixed),
    /// A text between quotes.
    Text(Text),
    /// TRUE or FALSE.
    Truth(bool),
    /// A fault that is written out, or a reference to a sheet that doesn't exist.
    Fault(FaultKind),
    /// The value of a cell.
    Cell(Ref),
    /// A block of cells, by its first corner and its last one.
    Area(Ref, Ref),
    /// All rows from the first to the last.
    WholeRows(SheetPart, Part, Part),
    /// All columns from the first to the last.
    WholeCols(SheetPart, Part, Part),
    /// A named expression.
    Name(Text),
    /// A sign in front of a formula.
    Prefix(Sign, Tree),
    /// A formula followed by `%`.
    Percent(Tree),
    /// An operator between two formulas.
    Binary(Op, Tree, Tree),
    /// A function, by its word in capitals, and its arguments.
    Call(Text, TreeList),
    /// A formula in parentheses.
    Paren(Tree),
}

/// The arguments of a call, in order.
#[derive(Drop)]
#[cycle(node)]
pub struct TreeList {
    list: Vec<Tree>,
}

impl TreeList {
    ghost use Rattle.formula_tree.specs.Arguments.{trees};

    /// No arguments.
    pub fn new(alloc: Global) -> Result<TreeList, AllocError>
        ensures { IfOk result (λ list. trees list ≡ []) }
    {
        Ok(TreeList {
            list: Vec::new(alloc),
        })
    }

    /// Puts an argument at the end. Where there is no memory the arguments stay as they were.
    pub fn push(&mut self, argument: Tree) -> Result<(), AllocError>
        ensures ok { OnOk result (trees self.new ≡ trees self.old ++ argument ∷ []) }
        ensures err { OnErr result (trees self.new ≡ trees self.old) }
    {
        self.list.push(argument)?;
        Ok(())
    }

    /// The arguments.
    pub fn items(&self) -> &[Tree]
        ensures { result.now ≡ trees self.now }
    {
        self.list.as_slice()
    }

    // The levels of the deepest argument, at most `u32::MAX`; 0 where there is none.
    #[cycle(depth)]
    fn deepest(&self) -> u32
        ensures { result ≡ min (depth_of_all (relative_list self.now)) u32.MAX }
    {
        let mut deepest = 0;
        'arguments: for argument in self.list.as_slice() {
            deepest = deepest.max(argument.depth());
        }
        deepest
    }
}

impl Node {
    /// Whether the tree is a reference, a block or a whole range, and no parenthesis round one.
    pub fn is_reference(&self) -> bool
        ensures { result ≡ is_reference (relative self.now) }
    {
        match self {
            Node::Cell(_) | Node::Area(_, _) => true,
            Node::WholeRows(_, _, _) | Node::WholeCols(_, _, _) => true,
            Node::Number(_) | Node::Text(_) | Node::Truth(_) | Node::Fault(_) | Node::Name(_) =>
                false,
            Node::Prefix(_, _) | Node::Percent(_) | Node::Paren(_) => false,
            Node::Binary(_, _, _) | Node::Call(_, _) => false,
        }
    }

    // The levels of the tree, at most `u32::MAX`.
    #[cycle(depth)]
    fn depth(&self) -> u32
        ensures { result ≡ min (depth_of (relative self.now)) u32.MAX }
    {
        match self {
            Node::Number(_) | Node::Text(_) | Node::Truth(_) | Node::Fault(_) => 1,
            Node::Cell(_) | Node::Area(_, _) | Node::Name(_) => 1,
            Node::WholeRows(_, _, _) | Node::WholeCols(_, _, _) => 1,
            Node::Prefix(_, part) => part.depth().saturating_add(1),
            Node::Percent(part) => part.depth().saturating_add(1),
            Node::Paren(part) => part.depth().saturating_add(1),
            Node::Binary(_, left, right) => left.depth().max(right.depth()).saturating_add(1),
            Node::Call(_, list) => list.deepest().saturating_add(1),
        }
    }
}

/// The levels of the tree: 1 for a leaf, and 1 more than its deepest part for another node.
/// `u32::MAX` where that is more.
pub fn depth(tree: &Tree) -> u32
    ensures { (home : Home) (t : Term Corner) → StandsFor tree.now home t → result ≡ min (depth_of t) u32.MAX }
{
    tree.depth()
}
