// A walk through a shared tree, by a rule for its references.
ghost use Rattle.std.specs.Prelude.{◌≡◌, ◌↔◌, ◌∷◌, ◌++◌, map, None, Some, IfOk, IsTrue};
ghost use Rattle.formula_tree.specs.Arguments.{trees};
ghost use Rattle.formula_tree.specs.Relative.{relative, relative_list};
ghost use Rattle.formula_tree.specs.Term.{Term, whole};
ghost use Rattle.formula_tree.specs.Whole.{first_ref, last_ref};
ghost use Rattle.formula_tree.specs.declared.reference.Ref.{Ref};
ghost use Rattle.tree_rewrite.specs.Replaced.{Becomes};
ghost use Rattle.tree_rewrite.specs.internal.Walk.{AllTake, Takes, all_replaced, replaced, term_of, terms_in, tree_replaced};

use crate::replacement::Replacement;
use cell_addr::Axis;
use formula_tree::{Node, Part, Ref, SheetPart, Tree, TreeList};
use std::alloc::{AllocError, Global};
use std::rc::Rc;

// A walk by a rule.
#[derive(Drop)]
pub(crate) struct Walk<'a, R: Replacement> {
    pub(crate) alloc: Global,
    pub(crate) rule: &'a R,
}

impl<'a, R: Replacement> Walk<'a, R> {
    // What a tree becomes; None where it stays as it is. Parts that stay are shared.
    #[cycle(node)]
    fn node(&self, node: &Node) -> Result<Option<Node>, AllocError>
        requires { Takes (R.TakesCell self.now.rule.now) (R.TakesArea self.now.rule.now) (relative node.now) }
        ensures { IfOk result (λ r. Becomes relative r (relative node.now) (replaced (R.for_cell self.now.rule.now) (R.for_area self.now.rule.now) (relative node.now))) }
    {
        match node {
            Node::Number(_) | Node::Text(_) | Node::Truth(_) | Node::Fault(_) | Node::Name(_) => {
                Ok(None)
            }
            Node::Cell(reference) => Ok(self.rule.reference(*reference)),
            Node::Area(first, last) => Ok(self.rule.area(None, *first, *last)),
            Node::WholeRows(sheet, first, last) => {
                Ok(self.whole(Axis::Rows, *sheet, *first, *last))
            }
            Node::WholeCols(sheet, first, last) => {
                Ok(self.whole(Axis::Cols, *sheet, *first, *last))
            }
            Node::Prefix(sign, part) => match self.part(part)? {
                Some(part) => Ok(Some(Node::Prefix(*sign, part))),
                None => Ok(None),
            },
            Node::Percent(part) => match self.part(part)? {
                Some(part) => Ok(Some(Node::Percent(part))),
                None => Ok(None),
            },
            Node::Binary(op, left, right) => {
                let new_left = self.part(left)?;
                let new_right = self.part(right)?;
                if neither(&new_left, &new_right) {
                    return Ok(None);
                }
                let left = new_or_shared(new_left, left)?;
                let right = new_or_shared(new_right, right)?;
                Ok(Some(Node::Binary(*op, left, right)))
            }
            Node::Call(word, list) => match self.arguments(list)? {
                Some(list) => Ok(Some(Node::Call(word.copy(self.alloc)?, list))),
                None => Ok(None),
            },
            Node::Paren(part) => match self.part(part)? {
                Some(part) => Ok(Some(Node::Paren(part))),
                None => Ok(None),
            },
        }
    }

    // What a whole range becomes, by the parts of its first and of its last line; None where it stays as it is.
    fn whole(&self, axis: Axis, sheet: SheetPart, first: Part, last: Part) -> Option<Node>
        requires { R.TakesArea self.now.rule.now (Some axis) (first_ref axis sheet first) (last_ref axis sheet last) }
        ensures { Becomes relative result (whole axis (first_ref axis sheet first) (last_ref axis sheet last)) (R.for_area self.now.rule.now (Some axis) (first_ref axis sheet first) (last_ref axis sheet last)) }
    {
        self.rule.area(
            Some(axis),
            Ref::first_of(axis, sheet, first),
            Ref::last_of(axis, sheet, last),
        )
    }

    // What a shared tree becomes; None where it stays as it is.
    #[cycle(node)]
    pub(crate) fn part(&self, tree: &Tree) -> Result<Option<Tree>, AllocError>
        requires { Takes (R.TakesCell self.now.rule.now) (R.TakesArea self.now.rule.now) (term_of tree.now) }
        ensures { IfOk result (λ r. Becomes term_of r (term_of tree.now) (tree_replaced (R.for_cell self.now.rule.now) (R.for_area self.now.rule.now) tree.now)) }
    {
        match self.node(tree)? {
            Some(node) => Ok(Some(Rc::new(self.alloc, node)?)),
            None => Ok(None),
        }
    }

    // What the arguments of a call become; None where all stay as they are.
    #[cycle(node)]
    fn arguments(&self, list: &TreeList) -> Result<Option<TreeList>, AllocError>
        requires { AllTake (R.TakesCell self.now.rule.now) (R.TakesArea self.now.rule.now) (relative_list list.now) }
        ensures { IfOk result (λ r. Becomes relative_list r (relative_list list.now) (all_replaced (R.for_cell self.now.rule.now) (R.for_area self.now.rule.now) (relative_list list.now))) }
    {
        let items = list.items();
        'staying: for (index, argument) in items.iter().enumerate() {
            if let Some(changed) = self.part(argument)? {
                let list = self.arguments_from(&items[..index], changed, &items[index + 1..])?;
                return Ok(Some(list));
            }
        }
        Ok(None)
    }

    // Arguments of which those in front stay, one is changed already, and the rest becomes what it becomes.
    #[cycle(node)]
    fn arguments_from(
        &self,
        front: &[Tree],
        changed: Tree,
        rest: &[Tree],
    ) -> Result<TreeList, AllocError>
        requires { AllTake (R.TakesCell self.now.rule.now) (R.TakesArea self.now.rule.now) (terms_in rest.now) }
        ensures { IfOk result (λ list. map term_of (trees list)
            ≡ map term_of front.now ++ (term_of changed ∷ map (tree_replaced (R.for_cell self.now.rule.now) (R.for_area self.now.rule.now)) rest.now)) }
    {
        let mut list = TreeList::new(self.alloc)?;
        'front: for argument in front {
            list.push(argument.clone()?)?;
        }
        list.push(changed)?;
        'rest: for argument in rest {
            let new = self.part(argument)?;
            list.push(new_or_shared(new, argument)?)?;
        }
        Ok(list)
    }
}

// Whether both trees stay as they are.
fn neither(a: &Option<Tree>, b: &Option<Tree>) -> bool
    ensures { IsTrue result ↔ ((a.now ≡ None) × (b.now ≡ None)) }
{
    a.is_none() && b.is_none()
}

// The new tree where there is one, and else the old one, shared.
fn new_or_shared(new: Option<Tree>, old: &Tree) -> Result<Tree, AllocError>
    ensures { (after : Term Ref) → Becomes term_of new (term_of old.now) after → IfOk result (λ tree. term_of tree ≡ after) }
{
    match new {
        Some(tree) => Ok(tree),
        None => Ok(old.clone()?),
    }
}
