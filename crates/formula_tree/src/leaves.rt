// The leaves of a pool's trees, which they share.
ghost use Rattle.std.specs.Prelude.{◌≡◌, IfOk};
ghost use Rattle.formula_tree.specs.Relative.{relative, relative_list};

use crate::entry::Entry;
use crate::node::{Node, Tree, TreeList};
use indexmap::IndexSet;
use std::alloc::{AllocError, Global};
use std::rc::Rc;

// Nodes without parts, no two of them equal. Each is kept once, however many trees have it.
#[derive(Drop)]
pub(crate) struct Leaves {
    alloc: Global,
    trees: IndexSet<Entry>,
}

impl Leaves {
    // No leaves.
    pub(crate) fn new(alloc: Global) -> Leaves {
        Leaves {
            alloc,
            trees: IndexSet::new(alloc),
        }
    }

    // Forgets the leaves that no tree has any more.
    pub(crate) fn sweep(&mut self) {
        self.trees.retain(|entry| Rc::strong_count(&entry.tree) > 1);
    }

    // An equal tree, whose leaves are shared.
    #[cycle(leaves)]
    pub(crate) fn shared(&mut self, tree: &Tree) -> Result<Tree, AllocError>
        ensures { IfOk result (λ shared. relative shared.value ≡ relative tree.now.value) }
    {
        match tree.as_ref() {
            Node::Number(_)
            | Node::Text(_)
            | Node::Truth(_)
            | Node::Fault(_)
            | Node::Cell(_)
            | Node::Area(_, _)
            | Node::WholeRows(_, _, _)
            | Node::WholeCols(_, _, _)
            | Node::Name(_) => {
                let leaf = self.leaf(tree)?;
                Ok(leaf)
            }
            Node::Prefix(sign, part) => {
                let part = self.shared(part)?;
                Ok(Rc::new(self.alloc, Node::Prefix(*sign, part))?)
            }
            Node::Percent(part) => {
                let part = self.shared(part)?;
                Ok(Rc::new(self.alloc, Node::Percent(part))?)
            }
            Node::Binary(op, left, right) => {
                let left = self.shared(left)?;
                let right = self.shared(right)?;
                Ok(Rc::new(self.alloc, Node::Binary(*op, left, right))?)
            }
            Node::Call(word, list) => {
                let list = self.shared_list(list)?;
                Ok(Rc::new(self.alloc, Node::Call(word.copy(self.alloc)?, list))?)
            }
            Node::Paren(part) => {
                let part = self.shared(part)?;
                Ok(Rc::new(self.alloc, Node::Paren(part))?)
            }
        }
    }

    // Equal arguments, whose leaves are shared.
    #[cycle(leaves)]
    fn shared_list(&mut self, list: &TreeList) -> Result<TreeList, AllocError>
        ensures { IfOk result (λ shared. relative_list shared ≡ relative_list list.now) }
    {
        let mut shared = TreeList::new(self.alloc)?;
        'arguments: for argument in list.items() {
            shared.push(self.shared(argument)?)?;
        }
        Ok(shared)
    }

    // The leaf that is equal to this tree, which is added where there is none.
    fn leaf(&mut self, tree: &Tree) -> Result<Tree, AllocError>
        ensures { IfOk result (λ leaf. relative leaf.value ≡ relative tree.now.value) }
    {
        let entry = Entry {
            tree: tree.clone()?,
        };
        if let Some(known) = self.trees.get(&entry) {
            return Ok(known.tree.clone()?);
        }
        self.trees.insert(entry)?;
        Ok(tree.clone()?)
    }
}
