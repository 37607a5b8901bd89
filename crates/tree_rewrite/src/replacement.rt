// Rules for what comes in the places of a tree's references.
ghost use Rattle.std.specs.Prelude.{◌≡◌, ◌↔◌, IfOk, IsTrue, OnErr, Option};
ghost use Rattle.cell_addr.specs.declared.axis.Axis.{Axis};
ghost use Rattle.formula_tree.specs.Pooled.{held};
ghost use Rattle.formula_tree.specs.Relative.{relative};
ghost use Rattle.formula_tree.specs.Term.{Term, cell, mapped, shaped};
ghost use Rattle.formula_tree.specs.declared.reference.Ref.{Ref};
ghost use Rattle.tree_rewrite.specs.Pooled.{HoldsChanged};
ghost use Rattle.tree_rewrite.specs.References.{EachReference};
ghost use Rattle.tree_rewrite.specs.Replaced.{Becomes};
ghost use Rattle.tree_rewrite.specs.Shaped.{AreShaped};
ghost use Rattle.tree_rewrite.specs.internal.Walk.{term_of};

use crate::walk::Walk;
use cell_addr::Axis;
use formula_tree::{Node, Pool, Ref, Tree};
use std::alloc::{AllocError, Global};

/// A rule for what comes in the places of a tree's references, blocks and whole ranges, all as they are seen from the
/// home of the formula. A whole range is told from a block by the axis along which its rows or columns are, and has
/// the first and the last cell of its block.
pub trait Replacement {
    // The references, and the blocks and whole ranges, that the rule is for.
    ghost TakesCell: { Self → Ref → Type 0 };

    ghost TakesArea: { Self → Option Axis → Ref → Ref → Type 0 };

    // What comes in the place of a reference, and of a block or a whole range.
    ghost for_cell: { Self → Ref → Term Ref };

    ghost for_area: { Self → Option Axis → Ref → Ref → Term Ref };

    /// What comes in the place of a reference; `None` where it stays as it is.
    fn reference(&self, reference: Ref) -> Option<Node>
        requires { TakesCell self.now reference }
        ensures { Becomes relative result (cell reference) (for_cell self.now reference) };

    /// What comes in the place of a block, or of a whole range along an axis; `None` where it stays as it is.
    fn area(&self, lines: Option<Axis>, first: Ref, last: Ref) -> Option<Node>
        requires takes { TakesArea self.now lines first last }
        requires shape { AreShaped lines first last }
        ensures { Becomes relative result (shaped lines first last) (for_area self.now lines first last) };
}

/// The tree with what a rule puts in the places of its references, blocks and whole ranges.
///
/// A tree that stays the same is answered as it is, and the pool stays as it was; another one is shared in the pool, and
/// parts of it that stay aren't made anew. Where there is no memory the pool stays as it was. Costs about the nodes of
/// the tree.
pub fn replaced<R: Replacement>(
    alloc: Global,
    pool: &mut Pool,
    rule: &R,
    tree: &Tree,
) -> Result<Tree, AllocError>
    requires { EachReference (R.TakesCell rule.now) (R.TakesArea rule.now) (relative tree.now.value) }
    ensures tree { IfOk result (λ t. relative t.value ≡ mapped (R.for_cell rule.now) (R.for_area rule.now) (relative tree.now.value)) }
    ensures held { IfOk result (λ t. HoldsChanged (held pool.old) (relative tree.now.value) (relative t.value) (held pool.new)) }
    ensures err { OnErr result (held pool.new ≡ held pool.old) }
{
    let walk = Walk { alloc, rule };
    let changed = walk.part(tree)?;
    let tree = shared_or_kept(pool, changed, tree)?;
    Ok(tree)
}

// The changed tree as the pool shares it, or the old one, which isn't put into the pool.
fn shared_or_kept(pool: &mut Pool, changed: Option<Tree>, old: &Tree) -> Result<Tree, AllocError>
    ensures tree { (after : Term Ref) → Becomes term_of changed (term_of old.now) after → IfOk result (λ tree. term_of tree ≡ after) }
    ensures held { (after : Term Ref) → Becomes term_of changed (term_of old.now) after →
        IfOk result (λ tree. HoldsChanged (held pool.old) (term_of old.now) after (held pool.new)) }
    ensures err { OnErr result (held pool.new ≡ held pool.old) }
{
    match changed {
        Some(tree) => pool.share(tree),
        None => Ok(old.clone()?),
    }
}

/// The new reference as a node; `None` where it is the old one.
pub fn changed_cell(new: Ref, old: Ref) -> Option<Node>
    ensures { Becomes relative result (cell old) (cell new) }
{
    if same(new, old) {
        return None;
    }
    Some(Node::Cell(new))
}

/// The block between the new references, or the whole range along an axis, as a node; `None` where they are the old
/// ones. The new ones of a whole range name the first and the last cell of its block.
pub fn changed_area(lines: Option<Axis>, new: (Ref, Ref), old: (Ref, Ref)) -> Option<Node>
    requires { AreShaped lines new.0 new.1 }
    ensures { Becomes relative result (shaped lines old.0 old.1) (shaped lines new.0 new.1) }
{
    if both_same(new, old) {
        return None;
    }
    Some(area_node(lines, new.0, new.1))
}

// The node of a block, or of a whole range along an axis.
fn area_node(lines: Option<Axis>, first: Ref, last: Ref) -> Node
    requires { AreShaped lines first last }
    ensures { relative result ≡ shaped lines first last }
{
    match lines {
        None => Node::Area(first, last),
        Some(Axis::Rows) => Node::WholeRows(first.sheet, first.row, last.row),
        Some(Axis::Cols) => Node::WholeCols(first.sheet, first.col, last.col),
    }
}

// Whether the references are the same. Part by part, since no clause says what `==` on whole ones means.
fn same(a: Ref, b: Ref) -> bool
    ensures { IsTrue result ↔ (a ≡ b) }
{
    a.sheet == b.sheet && a.row == b.row && a.col == b.col
}

// Whether the first references are the same, and the last ones are.
fn both_same(a: (Ref, Ref), b: (Ref, Ref)) -> bool
    ensures { IsTrue result ↔ ((a.0 ≡ b.0) × (a.1 ≡ b.1)) }
{
    same(a.0, b.0) && same(a.1, b.1)
}
