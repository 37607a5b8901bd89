// Nodes whose formulas ask where a reference is, have lost one, or use a word that finds no name.
ghost use Rattle.std.specs.Prelude.{◌≡◌, ◌⊎◌, ℕ, [], true, false, IsTrue, List, OnOk};
ghost use Rattle.dep_graph.specs.Nodes.{has, same_node};
ghost use Rattle.dep_graph.specs.declared.node.Node.{Node as NodeSeen};
ghost use Rattle.marked_values.specs.Shifts.{asks_place};
ghost use Rattle.restored_values.specs.Suspects.{has_lost};
ghost use Rattle.kept_values.specs.Sought.{noted_under};
ghost use Rattle.kept_values.specs.Values.{AddsNoted, seeks_at};
ghost use Rattle.kept_values.specs.internal.Noting.{AreNotedAmong, IsNoted};

use crate::asking::asks_place;
use crate::seeking::note_sought;
use crate::sought::Sought;
use dep_graph::Node;
use indexmap::{IndexMap, IndexSet};
use recalc_core::{NodeContent, Trees};
use restored_values::has_lost;
use std::alloc::{AllocError, Global};

/// The nodes whose formulas were found to ask where a reference is, those whose formulas were found to have a lost reference, and
/// those whose formulas were found to use a word that finds no name, under each such word.
pub(crate) struct Noted {
    pub(crate) asking: IndexSet<Node>,
    pub(crate) losing: IndexSet<Node>,
    pub(crate) seeking: Sought,
}

// Written out, so that whoever drops them calls one function.
impl Drop for Noted {
    fn drop(self) {
        let Noted {
            asking: _asking,
            losing: _losing,
            seeking: _seeking,
        } = self;
    }
}

impl Noted {
    // None is noted.
    pub(crate) fn new(alloc: Global) -> Noted
        ensures asking { result.asking.keys ≡ [] }
        ensures losing { result.losing.keys ≡ [] }
        ensures seeking { (word : List ℕ) (a : NodeSeen) → noted_under result.seeking word a ≡ false }
    {
        Noted {
            asking: IndexSet::new(alloc),
            losing: IndexSet::new(alloc),
            seeking: IndexMap::new(alloc),
        }
    }
}

// Notes which of the nodes have a formula that asks where a reference is, which have one with a lost reference, and which have one
// with a word that finds no name, under each such word, and no other node.
pub(crate) fn note_all<T: Trees>(
    alloc: Global,
    trees: &mut T,
    nodes: &[Node],
    noted: &mut Noted,
) -> Result<(), AllocError>
    ensures asking { AddsNoted nodes.now (λ a. has a noted.old.asking.keys) (λ a. has a noted.new.asking.keys) }
    ensures losing { AddsNoted nodes.now (λ a. has a noted.old.losing.keys) (λ a. has a noted.new.losing.keys) }
    ensures seeking { (word : List ℕ) → AddsNoted nodes.now (noted_under noted.old.seeking word) (noted_under noted.new.seeking word) }
    ensures asks { OnOk result (AreNotedAmong (λ x. asks_place) (T.workbook trees.old) (T.words trees.old) nodes.now (λ a. has a noted.new.asking.keys)) }
    ensures loses { OnOk result (AreNotedAmong (λ x. has_lost) (T.workbook trees.old) (T.words trees.old) nodes.now (λ a. has a noted.new.losing.keys)) }
    ensures seeks { OnOk result ((word : List ℕ) → AreNotedAmong (seeks_at (T.workbook trees.old) word) (T.workbook trees.old) (T.words trees.old) nodes.now (noted_under noted.new.seeking word)) }
    ensures leaves { T.workbook trees.new ≡ T.workbook trees.old }
    ensures words { T.words trees.new ≡ T.words trees.old }
    ensures reads { T.leaves trees.old trees.new }
{
    'nodes: for node in nodes {
        note(alloc, trees, *node, noted)?;
    }
    Ok(())
}

// Notes the node, if its formula asks, if it has a lost reference, and under each word of it that finds no name.
fn note<T: Trees>(
    alloc: Global,
    trees: &mut T,
    a: Node,
    noted: &mut Noted,
) -> Result<(), AllocError>
    ensures asking_stay { (b : NodeSeen) → has b noted.old.asking.keys ≡ true → has b noted.new.asking.keys ≡ true }
    ensures asking_only { (b : NodeSeen) → has b noted.new.asking.keys ≡ true → (has b noted.old.asking.keys ≡ true) ⊎ (same_node b a ≡ true) }
    ensures losing_stay { (b : NodeSeen) → has b noted.old.losing.keys ≡ true → has b noted.new.losing.keys ≡ true }
    ensures losing_only { (b : NodeSeen) → has b noted.new.losing.keys ≡ true → (has b noted.old.losing.keys ≡ true) ⊎ (same_node b a ≡ true) }
    ensures seeking_stay { (word : List ℕ) (b : NodeSeen) → noted_under noted.old.seeking word b ≡ true → noted_under noted.new.seeking word b ≡ true }
    ensures seeking_only { (word : List ℕ) (b : NodeSeen) → noted_under noted.new.seeking word b ≡ true → (noted_under noted.old.seeking word b ≡ true) ⊎ (same_node b a ≡ true) }
    ensures asks { OnOk result (IsNoted (λ x. asks_place) (T.workbook trees.old) (T.words trees.old) (λ b. has b noted.new.asking.keys) a) }
    ensures loses { OnOk result (IsNoted (λ x. has_lost) (T.workbook trees.old) (T.words trees.old) (λ b. has b noted.new.losing.keys) a) }
    ensures seeks { OnOk result ((word : List ℕ) → IsNoted (seeks_at (T.workbook trees.old) word) (T.workbook trees.old) (T.words trees.old) (noted_under noted.new.seeking word) a) }
    ensures leaves { T.workbook trees.new ≡ T.workbook trees.old }
    ensures words { T.words trees.new ≡ T.words trees.old }
    ensures reads { T.leaves trees.old trees.new }
{
    match trees.given(a)? {
        NodeContent::Formula(tree, home) => {
            add_if(asks_place(&tree, home), a, &mut noted.asking)?;
            add_if(has_lost(&tree), a, &mut noted.losing)?;
            note_sought(alloc, trees, &tree, home, a, &mut noted.seeking)
        }
        NodeContent::Nothing | NodeContent::Value(_) => Ok(()),
    }
}

// Adds the node to the set, if it is to be there.
fn add_if(is: bool, a: Node, nodes: &mut IndexSet<Node>) -> Result<(), AllocError>
    ensures stay { (b : NodeSeen) → has b nodes.old.keys ≡ true → has b nodes.new.keys ≡ true }
    ensures only { (b : NodeSeen) → has b nodes.new.keys ≡ true → (has b nodes.old.keys ≡ true) ⊎ (same_node b a ≡ true) }
    ensures there { OnOk result (is ≡ true → has a nodes.new.keys ≡ true) }
{
    if is {
        nodes.insert(a)?;
    }
    Ok(())
}
